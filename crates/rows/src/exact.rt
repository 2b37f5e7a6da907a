// Which entries of one total are exact, from the rows and their marks at earlier totals.

ghost use Rattle.std.specs.Prelude.{◌≡◌, ◌&&◌, ◌<◌};
ghost use Rattle.rows.specs.Exact.{lows, highs, used_zero, used_at};
ghost use Rattle.rows.specs.Lent.{shared_entries, shared_marks, MarkedRoom};
ghost use Rattle.rows.specs.Progress.{SettledRows};

use super::layout::SharedRows;
use super::total::{Recursion, WEIGHT_ALONE};
use enclosure::marks::Settled;

impl Recursion<'_> {
    // Whether all entries leave the sums exact that row 0 uses, term by term.
    fn are_terms_exact(&self, rows: &SharedRows<'_>, settled: Settled, x: usize) -> bool
        requires room { MarkedRoom rows.now × (x < rows.now.places) }
        requires settled_rows { SettledRows settled self.now.job.law.order x
            (lows (shared_entries rows.now)) (highs (shared_entries rows.now)) (shared_marks rows.now) }
        ensures { result ≡ used_zero self.now.job.law self.now.weights.now
            (lows (shared_entries rows.now)) (highs (shared_entries rows.now)) (shared_marks rows.now) x }
    {
        let order = self.job.law.order as usize;
        (0..order).all(|i| rows.is_row_exact(self.term_factor(x, i), settled, x, self.weights, i))
    }

    // Whether the entry of row `row` is exact; `divided` says that its sums were divided without remainder. Only then are the entries
    // looked at that it uses. No two of the parameters go together in every call, and the flag has no value beside it.
    pub fn is_exact(
        &self,
        rows: &SharedRows<'_>,
        divided: bool,
        settled: Settled,
        x: usize,
        row: usize,
    ) -> bool
        requires room { MarkedRoom rows.now × (x < rows.now.places) × (row < self.now.job.law.order) }
        requires settled_rows { SettledRows settled self.now.job.law.order x
            (lows (shared_entries rows.now)) (highs (shared_entries rows.now)) (shared_marks rows.now) }
        ensures { result ≡ (divided && used_at self.now.job.law self.now.weights.now (lows (shared_entries rows.now))
            (highs (shared_entries rows.now)) (shared_marks rows.now) row x) }
    {
        if !divided {
            return false;
        }
        if row == 0 {
            return self.are_terms_exact(rows, settled, x);
        }
        rows.is_row_exact(WEIGHT_ALONE, settled, x, self.weights, row - 1)
    }
}
