// One pass over the severities: the three sums of one term of the law, or of one convolution with the table, taken run by run.

ghost use Rattle.std.specs.Prelude.{◌≡◌};
ghost use Rattle.enclosure.specs.Entry.{plus, EntryFits};
ghost use Rattle.enclosure.specs.Term.{TermRoom, RowLong, line_factor, entries_of, term_sums};
ghost use Rattle.enclosure.specs.Run.{RunRoom, upright, run_sums};

use super::raised::run_sums;
use super::run::Run;
use super::term::Factor;
use super::{Entry, Row};

// The sums with those over a run added. Where the factors are zero or less, the sums with their negatives come off, and low and high
// change places. What is asked here and in raised.rt, `RunRoom` and `RowLong`, is about this run and this total, so it is no fact of a row;
// and no two of the parameters go together in every call.
#[inline(always)]
#[tactic(auto, using(crate::proofs::Scaled::minus_sums))]
fn add_run(sums: Entry, factor: Factor, run: Run, x: usize, weights: &[u64], row: &Row<'_>) -> Entry
    requires run_room { RunRoom (upright factor run.negative) run.from run.to x weights.now (entries_of row.now) }
    requires row_long { RowLong row.now x }
    requires entry_fits { EntryFits (plus sums (run_sums factor run.from run.to x weights.now (entries_of row.now))) }
    ensures { result ≡ plus sums (run_sums factor run.from run.to x weights.now (entries_of row.now)) }
{
    if run.negative {
        sums - run_sums(-factor, run, x, weights, row)
    } else {
        sums + run_sums(factor, run, x, weights, row)
    }
}

// The sums with the term's added, at total `x`: over y from 1 to the smaller of x and the number of weights. A pass is made part of its
// callers, so that a convolution does not multiply by its line, which is 1.
#[inline(always)]
#[tactic(auto, using(crate::proofs::RunByRun::first_next, crate::proofs::RunByRun::second_next))]
pub fn add_term(sums: Entry, factor: Factor, x: usize, weights: &[u64], row: &Row<'_>) -> Entry
    requires term_room { TermRoom sums factor x weights.now (entries_of row.now) }
    requires row_long { RowLong row.now x }
    ensures { result ≡ term_sums sums (line_factor factor weights.now) x weights.now (entries_of row.now) }
{
    let last = x.min(weights.len());
    let first = Run::first(factor, last);
    let sums = add_run(sums, factor, first, x, weights, row);
    if first.to == last {
        return sums;
    }
    let second = Run {
        from: first.to,
        to: last,
        negative: !first.negative,
    };
    add_run(sums, factor, second, x, weights, row)
}
