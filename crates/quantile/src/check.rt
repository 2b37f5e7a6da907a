// Refusals 31 to 33, which both queries have: the rows' lengths, the level, the rows' entries.

ghost use Rattle.std.specs.Prelude.{◌≡◌, ◌∷◌, [], IfOk};
ghost use Rattle.model.specs.Answer.{answer_of, first_refusal};
ghost use Rattle.quantile.specs.Call.{number_of, level_condition, checks};

use super::Reason;
use intervals::{CheckedIntervals, Intervals};
use model::limits::UNIT;
use model::refusal::Refusal;

#[tactic(auto, unfolding(model::specs::Answer::first_refusal))]
fn check_level(level: i64) -> Result<(), Refusal<Reason>>
    ensures { answer_of number_of result ≡ first_refusal (level_condition level ∷ []) }
{
    if !(1..=UNIT).contains(&level) {
        return Err(Reason::Level.into());
    }
    Ok(())
}

pub fn checked<'a>(rows: Intervals<'a>, level: i64) -> Result<CheckedIntervals<'a>, Refusal<Reason>>
    ensures answer { answer_of number_of result
        ≡ first_refusal (checks rows.entry.low.now rows.entry.high.now level) }
    ensures same_rows { IfOk result (λ checked.
        (checked.low.entries.now ≡ rows.entry.low.now) × (checked.high.entries.now ≡ rows.entry.high.now)) }
{
    rows.check_lengths(Reason::Rows)?;
    check_level(level)?;
    rows.check_entries(Reason::Entry)
}
