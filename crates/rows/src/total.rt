// What the totals are computed from, and the entries of one total, from the rows at earlier totals.

ghost use Rattle.std.specs.Prelude.{◌≡◌, ◌≤◌, ◌<◌, ◌^◌, pos, nat_abs, get_or};
ghost use Rattle.model.specs.Limits.{unit, most_order, most_last};
ghost use Rattle.enclosure.specs.Run.{FactorSmall};
ghost use Rattle.rows.specs.Curve.{first_entry, divisor_at, sums_zero, sums_at, entry_at};
ghost use Rattle.rows.specs.Exact.{divides_at};
ghost use Rattle.rows.specs.Lent.{shared_held, shared_entries};
ghost use Rattle.rows.specs.Limits.{Limits};
ghost use Rattle.rows.specs.Progress.{divisors_of, term_factor, ReadyAt};

use super::layout::SharedRows;
use enclosure::term::Factor;
use enclosure::{Divided, Entry};
use model::{Job, Start};

// The divisors of a job: that of row 0 at total 1, D W - A w(0), and that of the further rows, W.
#[derive(Clone, Copy)]
pub struct Divisors {
    pub first: u64,
    pub further: u64,
}

// A job within the limits, the row of its table, and its divisors.
#[derive(Clone, Copy)]
pub struct Recursion<'a> {
    pub job: Job,
    pub weights: &'a [u64],
    pub divisors: Divisors,
    ghost limits: { Limits job weights.now },
    ghost divided: { divisors ≡ divisors_of job weights.now },
}

// The factor of a further row: w(y) alone.
pub const WEIGHT_ALONE: Factor = Factor {
    constant: 1,
    slope: 0,
};

// The entry of row `row` at total 0.
fn first_entry(start: Start, row: usize) -> Entry
    requires { (start.low ≤ start.high) × (start.high ≤ unit) }
    ensures { result ≡ first_entry start row }
{
    if row == 0 {
        let low = start.low as i64;
        let high = start.high as i64;
        return Entry {
            low,
            high,
            bound: high - low,
        };
    }
    Entry::NONE
}

// The factor of term `i` + 1: A x + B y, times w(y); `a` and `b` are A_1..A_4 and B_1..B_4.
pub fn term_factor(a: &[i64; 4], b: &[i64; 4], x: usize, i: usize) -> Factor
    requires { (i < most_order) × (x ≤ most_last) × (nat_abs (get_or a.now i (pos 0)) ≤ 1000) }
    ensures { result ≡ term_factor a.now b.now x i }
{
    Factor {
        constant: a[i] * x as i64,
        slope: b[i],
    }
}

// What is asked of the rows, `ReadyAt`, is about total `x` and the totals before it, so it is no fact of `SharedRows`. Room for entries and
// room for marks are asked for apart, since not every function needs both.
impl Recursion<'_> {
    // The factor of term `i` + 1 of the job's law.
    pub fn term_factor(&self, x: usize, i: usize) -> Factor
        requires { (i < most_order) × (x ≤ most_last) }
        ensures factor { result ≡ term_factor self.now.job.law.a self.now.job.law.b x i }
        ensures small { FactorSmall result }
    {
        term_factor(&self.job.law.a, &self.job.law.b, x, i)
    }

    // The divisor of row `row` at total `x`.
    fn divisor(&self, row: usize, x: usize) -> u64
        requires { (1 ≤ x) × (x ≤ most_last) }
        ensures divisor { result ≡ divisor_at self.now.job self.now.weights.now row x }
        ensures fits { (1 ≤ result) × (result < 2 ^ 63) }
    {
        if row == 0 {
            self.divisors.first * x as u64
        } else {
            self.divisors.further
        }
    }

    // The sums of row 0, term by term.
    fn sums_zero(&self, rows: &SharedRows<'_>, x: usize) -> Entry
        requires { ReadyAt self.now.job.law.order x rows.now.places (shared_held rows.now) }
        ensures { result ≡ sums_zero self.now.job.law self.now.weights.now (shared_entries rows.now) x }
    {
        let mut sums = Entry::NONE;
        // By number, as term i + 1 reads row i.
        for i in 0..self.job.law.order as usize {
            sums = rows.add_row(sums, self.term_factor(x, i), x, self.weights, i);
        }
        sums
    }

    // The sums of row `row`.
    fn sums_at(&self, rows: &SharedRows<'_>, x: usize, row: usize) -> Entry
        requires { ReadyAt self.now.job.law.order x rows.now.places (shared_held rows.now) × (row < self.now.job.law.order) }
        ensures { result ≡ sums_at self.now.job.law self.now.weights.now (shared_entries rows.now) row x }
    {
        if row == 0 {
            return self.sums_zero(rows, x);
        }
        rows.add_row(Entry::NONE, WEIGHT_ALONE, x, self.weights, row - 1)
    }

    // The entry of row `row` at total `x`, and whether its sums were divided without remainder.
    pub fn entry_at(&self, rows: &SharedRows<'_>, x: usize, row: usize) -> Divided
        requires { ReadyAt self.now.job.law.order x rows.now.places (shared_held rows.now) × (row < self.now.job.law.order) }
        ensures entry { result.entry ≡ entry_at self.now.job self.now.weights.now (shared_entries rows.now) row x }
        ensures exact { result.exact ≡ divides_at self.now.job self.now.weights.now (shared_entries rows.now) row x }
    {
        if x == 0 {
            return Divided {
                entry: first_entry(self.job.start, row),
                exact: true,
            };
        }
        self.sums_at(rows, x, row).divided(self.divisor(row, x))
    }
}
