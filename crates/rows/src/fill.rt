// The rows, filled total by total up to the first total that has a fault.

ghost use Rattle.std.specs.Prelude.{◌≡◌, ◌+◌, ◌≤◌};
ghost use Rattle.model.specs.Limits.{most_last};
ghost use Rattle.rows.specs.Curve.{entry_at};
ghost use Rattle.rows.specs.Exact.{exact_at};
ghost use Rattle.rows.specs.Lent.{held, entries_in, marks_in, MarkRoom, Room, SameRows};
ghost use Rattle.rows.specs.Progress.{Ready, total_answer, Advanced, Filled, stop_of};
ghost use Rattle.rows.specs.Progress.{MarksAdvanced, MarksFilled, SettledIn, settled_by, settled_after};

use super::layout::Rows;
use super::total::Recursion;
use enclosure::Entry;
use enclosure::marks::Settled;

// What the rows of a total may show: a low or high out of range, a bound too large.
#[derive(Clone, Copy, Debug, PartialEq, Eq)]
pub enum Fault {
    Range,
    Bound,
}

// Where the run of the totals stops: at the first total that has a fault.
#[derive(Clone, Copy, Debug, PartialEq, Eq)]
pub struct Stop {
    pub fault: Fault,
    pub total: usize,
}

// What is known from then on, once an entry of total `x` is put: one that is not exact, or whose ends are not equal, ends what was known.
fn with_mark(settled: Settled, x: usize, exact: bool, entry: Entry) -> Settled
    requires { x ≤ most_last }
    ensures { result ≡ settled_by settled x exact entry }
{
    if !exact {
        Settled {
            exact: x + 1,
            equal: x + 1,
        }
    } else if entry.low == entry.high {
        settled
    } else {
        Settled {
            equal: x + 1,
            ..settled
        }
    }
}

impl Recursion<'_> {
    // The entries of total `x`, put into the rows with their marks, and what is known then. The loop counts rows, since what it calls takes
    // the number of a row: all past the first lie in one work row.
    fn fill_total(&self, rows: &mut Rows<'_>, settled: Settled, x: usize) -> Result<Settled, Stop>
        requires ready { Ready self.now.job.law.order x rows.old }
        requires mark_room { MarkRoom rows.old }
        requires settled_rows { SettledIn settled self.now.job.law.order x rows.old }
        ensures answer { result ≡ total_answer self.now.job self.now.weights.now rows.old settled x }
        ensures same { SameRows rows.new rows.old }
        ensures rows { Advanced self.now.job self.now.weights.now rows.old.places x self.now.job.law.order (held rows.old) (held rows.new) }
        ensures marks { MarksAdvanced self.now.job self.now.weights.now rows.old.places x self.now.job.law.order (entries_in rows.old)
            rows.old.mark.now rows.old.work.now rows.new.mark.now rows.new.work.now }
    {
        let mut range = false;
        let mut bound = false;
        let mut next = settled;
        for row in 0..self.job.law.order as usize {
            let shared = rows.shared();
            let made = self.entry_at(&shared, x, row);
            let exact = self.is_exact(&shared, made.exact, settled, x, row);
            // Before the puts, where the compiler still knows that `exact` is false after a remainder.
            next = with_mark(next, x, exact, made.entry);
            rows.put(row, x, made.entry);
            rows.put_mark(row, x, exact);
            range |= made.entry.is_out_of_range();
            bound |= made.entry.is_bound_too_large();
        }
        if range {
            return Err(Stop {
                fault: Fault::Range,
                total: x,
            });
        }
        if bound {
            return Err(Stop {
                fault: Fault::Bound,
                total: x,
            });
        }
        Ok(next)
    }

    // The rows, filled from total 0 on, up to the last total or the first that has a fault. The loop counts totals, since each reads all
    // before it.
    pub fn fill(&self, rows: &mut Rows<'_>) -> Result<(), Stop>
        requires room { Room rows.old × (rows.old.places ≡ self.now.job.last + 1) }
        ensures stop { result ≡ stop_of self.now.job self.now.weights.now }
        ensures same { SameRows rows.new rows.old }
        ensures rows { Filled self.now.job self.now.weights.now (held rows.old) (held rows.new) }
        ensures marks { MarksFilled self.now.job self.now.weights.now rows.old.mark.now rows.new.mark.now rows.new.work.now }
    {
        let mut settled = Settled { exact: 0, equal: 0 };
        for x in 0..rows.places {
            settled = self.fill_total(rows, settled, x)?;
        }
        Ok(())
    }
}
