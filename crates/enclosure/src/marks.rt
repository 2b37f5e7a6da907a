// Marks, which say of an entry that it is exact: 1, or 0 where that is not known. A term keeps exactness where each entry that counts in it
// is exact; this is looked at in a pass of its own, which leaves out what is known already and ends at the first entry that is not exact.

ghost use Rattle.std.specs.Prelude.{◌≡◌, ◌≤◌, ◌+◌};
ghost use Rattle.model.specs.Limits.{most_last};
ghost use Rattle.model.specs.Weights.{total_weight};
ghost use Rattle.enclosure.specs.Term.{line_factor};
ghost use Rattle.enclosure.specs.Run.{FactorSmall};
ghost use Rattle.enclosure.specs.Mark.{keeps_exact, number_in, exact_in, term_exact};
ghost use Rattle.enclosure.specs.Known.{SettledRow, KnownFrom, MarkedLong};

use super::run::Run;
use super::term::Factor;

// What is known of all entries from some total on, in every row: from `exact` on they are exact, and from `equal` on they have equal ends
// too.
#[derive(Clone, Copy)]
pub struct Settled {
    pub exact: usize,
    pub equal: usize,
}

// The ends of a row's entries, and their marks.
#[derive(Clone, Copy)]
pub struct MarkedRow<'a> {
    pub low: &'a [i64],
    pub high: &'a [i64],
    pub mark: &'a [i64],
}

impl Settled {
    // The total from which on a term keeps exactness for what is known: where no factor is negative, ends need not be equal. `equal` would
    // be right always, and leave more to look at.
    fn known_from(self, factor: Factor, last: usize) -> usize
        requires { FactorSmall factor × (last ≤ most_last) }
        ensures { KnownFrom factor last self result }
    {
        let run = Run::first(factor, last);
        if run.negative || run.to < last {
            self.equal
        } else {
            self.exact
        }
    }
}

impl MarkedRow<'_> {
    // Whether the entry of total `z`, used with the factor `f`, leaves a sum exact.
    fn keeps_exact(&self, f: i64, z: usize) -> bool
        requires { MarkedLong self.now (z + 1) }
        ensures { result ≡ keeps_exact f (number_in self.now.low.now z) (number_in self.now.high.now z) (exact_in self.now.mark.now z) }
    {
        f == 0 || 0 < self.mark[z] && (0 < f || self.low[z] == self.high[z])
    }
}

// Whether all entries leave a sum exact that a term uses at total `x`. The latest are known; of the others it begins with the latest.
pub fn are_exact(
    factor: Factor,
    settled: Settled,
    x: usize,
    weights: &[u64],
    row: &MarkedRow<'_>,
) -> bool
    requires factor_small { FactorSmall factor × (x ≤ most_last) × (total_weight weights.now ≤ 1000) }
    requires row_long { MarkedLong row.now x }
    requires settled_row { SettledRow settled x (number_in row.now.low.now) (number_in row.now.high.now) (exact_in row.now.mark.now) }
    ensures { result ≡ term_exact (line_factor factor weights.now) x weights.now
        (number_in row.now.low.now) (number_in row.now.high.now) (exact_in row.now.mark.now) }
{
    let last = x.min(weights.len());
    let known = settled.known_from(factor, last);
    let first = last.min(x - known);
    (first..last).all(|y| row.keeps_exact(factor.at(y + 1, weights[y]), x - (y + 1)))
}
