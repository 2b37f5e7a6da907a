// Layer costs: the mean claim between an attachment and a limit, for each layer of a list, as a low and a high.

#![tactic(auto)]

mod check;
mod cost;

ghost use Rattle.std.specs.Prelude.{◌≡◌};
ghost use Rattle.layer.specs.Call.{number_of, paper, tells_costs, layer_costs};

use check::checked;
use cost::write_costs;
use intervals::Intervals;
use model::refusal::{Numbered, Refusal};

// The most layers of a list.
pub const MOST_LAYERS: usize = 64;

// A list of layers: the first `count` places of both arrays. Layer i begins at the total `attachments[i]` and ends at `limits[i]`.
// Two arrays and a count, and no slice of layers: `claimtotals_layers` is handed these, and 61 refuses a count above 64.
#[derive(Clone, Copy)]
pub struct LayerList {
    pub count: usize,
    pub attachments: [usize; MOST_LAYERS],
    pub limits: [usize; MOST_LAYERS],
}

// Why the call refuses, by the paper's numbers.
#[derive(Clone, Copy, Debug, PartialEq, Eq)]
pub enum Reason {
    // Rows empty, unequal in length or longer than 501.
    Rows = 31,
    // An entry outside -2U to 2U, or a low above its high: its place is that of the first.
    Entry = 33,
    // The list is empty, longer than 64 or longer than an answer row.
    Count = 61,
    // An attachment that is not below its limit: its place is the layer's number, from 0.
    Attachment = 62,
    // A limit above the rows' length, likewise.
    Limit = 63,
}

impl Numbered for Reason {
    ghost number_of = { number_of };

    fn number(self) -> u64 {
        self as u64
    }
}

// The low of each layer comes into the one answer row and its high into the other, in billionths. As savings come off, the low goes by the
// highs and the high by the lows.
pub fn layers(
    rows: Intervals,
    list: &LayerList,
    answer_low: &mut [i64],
    answer_high: &mut [i64],
) -> Result<(), Refusal<Reason>>
    ensures { tells_costs (paper result) answer_low.new answer_high.new
        ≡ layer_costs rows.entry.low.now rows.entry.high.now list.now answer_low.old answer_high.old }
{
    let checked = checked(rows, list, answer_low.len(), answer_high.len())?;
    write_costs(checked.high, list, answer_low);
    write_costs(checked.low, list, answer_high);
    Ok(())
}
