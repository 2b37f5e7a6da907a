// The sums over a run whose factors are zero or more, in natural numbers: with 2U added to what is multiplied, every number is zero or more
// and has at most 32 bits, so that the processor multiplies two pairs at once.

ghost use Rattle.std.specs.Prelude.{◌≡◌, ◌+◌, ◌-◌, ◌*◌, ◌<◌, ◌≤◌, ◌^◌, nat_abs};
ghost use Rattle.model.specs.Limits.{unit};
ghost use Rattle.enclosure.specs.Term.{RowLong, entries_of};
ghost use Rattle.enclosure.specs.Run.{RunRoom, RaisedSmall, AddRoom, raised, raised_term, raised_plus, raised_sums, lowered, run_sums};

use super::run::Run;
use super::term::Factor;
use super::{Entry, Row};
use model::limits::UNIT;

// Sums of entries raised by 2U, each times its factor, and the sum of the factors.
#[derive(Clone, Copy)]
pub struct Raised {
    pub low: u64,
    pub high: u64,
    pub bound: u64,
    pub factors: u64,
}

// The casts tell the compiler that both numbers have 32 bits.
fn product(a: u64, b: u64) -> u64
    requires { (a < 2 ^ 32) × (b < 2 ^ 32) }
    ensures { result ≡ a * b }
{
    u64::from(a as u32) * u64::from(b as u32)
}

// A sum with `f` times `z`, raised, added.
fn add_product(sum: u64, f: u64, z: i64) -> u64
    requires { (f < 2 ^ 32) × (nat_abs z ≤ 2 * unit) × (sum + f * raised z < 2 ^ 64) }
    ensures { result ≡ sum + f * raised z }
{
    sum + product(f, (z + 2 * UNIT) as u64)
}

impl Raised {
    // The sum of no entries.
    const NONE: Raised = Raised {
        low: 0,
        high: 0,
        bound: 0,
        factors: 0,
    };

    // The sums with `f` times the entry of total `z` added. Its numbers are read one by one: where an `Entry` is read first, the compiler
    // takes two pairs in a turn and not four, and the curve call has 8 % more instructions at m = X = 500.
    fn add_entry(self, f: u64, row: &Row<'_>, z: usize) -> Raised
        requires row_long { RowLong row.now (z + 1) }
        requires add_room { AddRoom self f (entries_of row.now z) }
        ensures { result ≡ raised_plus self (raised_term f (entries_of row.now z)) }
    {
        Raised {
            low: add_product(self.low, f, row.low[z]),
            high: add_product(self.high, f, row.high[z]),
            bound: add_product(self.bound, f, row.bound[z]),
            factors: self.factors + f,
        }
    }

    // The sums without what they were raised by: 2U times each factor.
    fn lowered(self) -> Entry
        requires { RaisedSmall self }
        ensures { result ≡ lowered self }
    {
        let excess = self.factors as i64 * (2 * UNIT);
        Entry {
            low: self.low as i64 - excess,
            high: self.high as i64 - excess,
            bound: self.bound as i64 - excess,
        }
    }
}

// The raised sums over a run, at total `x`. The loop goes down the severities and so up the totals: then only the weights are read
// backwards. With `for y in (run.from..run.to).rev()` the curve call has 9,304,499 instructions at k = 4, m = X = 500, with this index
// 9,285,536, and before rows were structs it had 9,289,603. With no index at all the loop would be over
// `weights[a..b].iter().rev().zip(low[c..d].iter().zip(&high[c..d]).zip(&bound[c..d]))`.
fn raised_sums(factor: Factor, run: Run, x: usize, weights: &[u64], row: &Row<'_>) -> Raised
    requires run_room { RunRoom factor run.from run.to x weights.now (entries_of row.now) }
    requires row_long { RowLong row.now x }
    ensures { result ≡ raised_sums factor run.to (run.to - run.from) x weights.now (entries_of row.now) }
{
    let mut sums = Raised::NONE;
    let mut line = factor.line_at(run.to);
    for i in 0..run.to - run.from {
        let y = run.to - (i + 1);
        let f = product(line as u64, weights[y]);
        sums = sums.add_entry(f, row, x - (y + 1));
        line -= factor.slope;
    }
    sums
}

// A term's sums over a run, at total `x`.
#[tactic(auto, using(crate::proofs::Lowered::run_small, crate::proofs::Lowered::run_lowered))]
pub fn run_sums(factor: Factor, run: Run, x: usize, weights: &[u64], row: &Row<'_>) -> Entry
    requires run_room { RunRoom factor run.from run.to x weights.now (entries_of row.now) }
    requires row_long { RowLong row.now x }
    ensures { result ≡ run_sums factor run.from run.to x weights.now (entries_of row.now) }
{
    raised_sums(factor, run, x, weights, row).lowered()
}
