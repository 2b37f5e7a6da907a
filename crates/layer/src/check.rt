// Refusals 31 and 33 of the rows, 61 of the list's length, 62 and 63 of its layers.

ghost use Rattle.std.specs.Prelude.{◌≡◌, ◌∷◌, [], ◌≤◌, IfOk};
ghost use Rattle.model.specs.Answer.{first_refusal};
ghost use Rattle.layer.specs.Call.{paper, most_layers, count_condition, all_layer_checks, checks};

use super::{LayerList, MOST_LAYERS, Reason};
use intervals::{CheckedIntervals, Intervals};
use model::limits::is_outside;
use model::refusal::Refusal;

// 61: a list of so many layers is empty, too long, or longer than one of two answer rows. The places of rows, here and below, and not the
// rows: the definition `checks` judges them by these alone.
#[tactic(auto, unfolding(model::specs::Answer::first_refusal))]
fn check_count(count: usize, low_places: usize, high_places: usize) -> Result<(), Refusal<Reason>>
    ensures { paper result ≡ first_refusal (count_condition count low_places high_places ∷ []) }
{
    if is_outside(1, MOST_LAYERS as u64, count as u64)
        || low_places < count
        || high_places < count
    {
        return Err(Reason::Count.into());
    }
    Ok(())
}

// The first layer at fault on rows of so many places.
fn check_layers(list: &LayerList, places: usize) -> Result<(), Refusal<Reason>>
    requires { list.now.count ≤ most_layers }
    ensures { paper result ≡ first_refusal (all_layer_checks places list.now) }
{
    let attachments = &list.attachments[..list.count];
    let limits = &list.limits[..list.count];
    for (place, (attachment, limit)) in attachments.iter().zip(limits).enumerate() {
        if *limit <= *attachment {
            return Err(Refusal {
                reason: Reason::Attachment,
                place,
            });
        }
        if places < *limit {
            return Err(Refusal {
                reason: Reason::Limit,
                place,
            });
        }
    }
    Ok(())
}

// All of them in the paper's order, for answer rows of so many places.
pub fn checked<'a>(
    rows: Intervals<'a>,
    list: &LayerList,
    low_places: usize,
    high_places: usize,
) -> Result<CheckedIntervals<'a>, Refusal<Reason>>
    ensures answer { paper result
        ≡ first_refusal (checks rows.entry.low.now rows.entry.high.now list.now low_places high_places) }
    ensures same_rows { IfOk result (λ checked.
        (checked.low.entries.now ≡ rows.entry.low.now) × (checked.high.entries.now ≡ rows.entry.high.now)) }
{
    rows.check_lengths(Reason::Rows)?;
    let checked = rows.check_entries(Reason::Entry)?;
    check_count(list.count, low_places, high_places)?;
    check_layers(list, rows.low.len())?;
    Ok(checked)
}
