// The cost of a layer by the entries of one row: by the highs it is the layer's low, by the lows its high.

ghost use Rattle.std.specs.Prelude.{◌≡◌, ◌≤◌, pos, length, get_or};
ghost use Rattle.algebra.specs.Slice.{written};
ghost use Rattle.algebra.specs.Sum.{sumℤ};
ghost use Rattle.layer.specs.Layer.{cost_by};
ghost use Rattle.layer.specs.Call.{costs_by};
ghost use Rattle.layer.specs.Room.{Fitting, Writable};

use super::LayerList;
use intervals::SummableRow;
use model::limits::UNIT;

#[derive(Clone, Copy)]
struct Layer {
    attachment: usize,
    limit: usize,
}

// The sum of a row's entries below a total.
fn sum_below(row: SummableRow, total: usize) -> i64
    requires { total ≤ length row.entries.now }
    ensures { result ≡ sumℤ total (λ x. get_or row.entry.entries.now x (pos 0)) }
{
    // Not `sum()`, whose bound the proof of a signed sum leaves open.
    let mut sum: i64 = 0;
    for entry in &row.entries[..total] {
        sum += *entry;
    }
    sum
}

impl Layer {
    // Its width times U less the sum of saving times entry. Below the attachment a layer saves its width, and from there on what the total
    // leaves to the limit.
    fn cost(self, row: SummableRow) -> i64
        requires { Fitting (length row.entries.now) self.attachment self.limit }
        ensures { result ≡ cost_by row.entry.entries.now self.attachment self.limit }
    {
        let width = self.limit - self.attachment;
        let mut saved: i64 = width as i64 * sum_below(row, self.attachment);
        for (past, entry) in row.entries[self.attachment..self.limit].iter().enumerate() {
            saved += (width - past) as i64 * *entry;
        }
        width as i64 * UNIT - saved
    }
}

// The costs of all layers over the first places of an answer row.
pub fn write_costs(row: SummableRow, list: &LayerList, answer: &mut [i64])
    requires { Writable (length row.entries.now) list.now (length answer.old) }
    ensures { answer.new ≡ written (costs_by row.entry.entries.now list.now) answer.old }
{
    let attachments = &list.attachments[..list.count];
    let limits = &list.limits[..list.count];
    for (place, (attachment, limit)) in attachments.iter().zip(limits).enumerate() {
        let layer = Layer {
            attachment: *attachment,
            limit: *limit,
        };
        // By place: of what `answer.iter_mut().zip(..)` writes, the proof knows nothing behind the loop.
        answer[place] = layer.cost(row);
    }
}
