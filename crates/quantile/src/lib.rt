// Level queries: the total up to which the chances of a curve reach a level, surely (by the lows) or possibly (by the highs).

#![tactic(auto)]

mod check;
mod search;

ghost use Rattle.std.specs.Prelude.{◌≡◌};
ghost use Rattle.model.specs.Answer.{first_refusal};
ghost use Rattle.quantile.specs.Call.{number_of, paper, quantile_of, reach_check, answered, sure_query, possible_query};

use check::checked;
use intervals::{Intervals, SummableRow};
use model::refusal::{Numbered, Refusal};
use search::quantile_of;

// Why a query refuses, by the paper's numbers.
#[derive(Clone, Copy, Debug, PartialEq, Eq)]
pub enum Reason {
    // Rows empty, unequal in length or longer than 501.
    Rows = 31,
    // The level is not 1 to U.
    Level = 32,
    // An entry outside -2U to 2U, or a low above its high: its place is that of the first.
    Entry = 33,
    // Of sure: no sum of lows reaches the level.
    LowsShort = 34,
    // Of possible: no sum of highs reaches the level.
    HighsShort = 35,
}

impl Numbered for Reason {
    ghost number_of = { number_of };

    fn number(self) -> u64 {
        self as u64
    }
}

// The total of a row, and the reason given where no sum of the row reaches the level. It stays a function of its own:
// made part of its callers, its loop sets a refusal's number and place in every turn, and a query on 501 places has 12,050 instructions in
// place of 10,080.
#[inline(never)]
fn total_of(row: SummableRow, level: i64, short: Reason) -> Result<usize, Refusal<Reason>>
    ensures { paper result
        ≡ answered (first_refusal (reach_check row.entry.entries.now (number_of short) level)) (quantile_of row.entry.entries.now level) }
{
    quantile_of(row, level).ok_or(short.into())
}

// The smallest total whose lows, summed from total 0, reach the level. It and `possible` are two calls, as the paper has them.
pub fn sure(rows: Intervals, level: i64) -> Result<usize, Refusal<Reason>>
    ensures { paper result ≡ sure_query rows.entry.low.now rows.entry.high.now level }
{
    total_of(checked(rows, level)?.low, level, Reason::LowsShort)
}

// The smallest total whose highs, summed from total 0, reach the level. The lows need not.
pub fn possible(rows: Intervals, level: i64) -> Result<usize, Refusal<Reason>>
    ensures { paper result ≡ possible_query rows.entry.low.now rows.entry.high.now level }
{
    total_of(checked(rows, level)?.high, level, Reason::HighsShort)
}
