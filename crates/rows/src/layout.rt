// Where the rows lie: row 0 in the lent rows, a further row in columns of the work row, three for its entries and one for its marks.

ghost use Rattle.std.specs.Prelude.{◌≡◌, ◌+◌, ◌-◌, ◌≤◌, ◌<◌, length, take, drop};
ghost use Rattle.model.specs.Limits.{most_totals};
ghost use Rattle.model.specs.Weights.{total_weight};
ghost use Rattle.enclosure.specs.Known.{MarkedLong, SettledRow};
ghost use Rattle.enclosure.specs.Mark.{number_in, exact_in, term_exact};
ghost use Rattle.enclosure.specs.Run.{FactorSmall};
ghost use Rattle.enclosure.specs.Term.{TermRoom, RowLong, line_factor, entries_of, term_sums};
ghost use Rattle.rows.specs.Exact.{lows, highs};
ghost use Rattle.rows.specs.Layout.{work_places, column_at, marks_at, column_of, marks_of, placed, mark_put, work_put};
ghost use Rattle.rows.specs.Lent.{held, shared_held, shared_entries, shared_marks, SameRows};
ghost use Rattle.rows.specs.Lent.{EntryRoomIn, EntryRoom, MarkRoom, MarkedRoom};

use enclosure::marks::{MarkedRow, Settled, are_exact};
use enclosure::pass::add_term;
use enclosure::term::Factor;
use enclosure::{Entry, Row};

// The columns of the work row that hold the entries of the rows 1 to 3: low, high and bound of each.
const ENTRY_COLUMNS: usize = 9;

// All its columns: behind those are the marks of these rows.
pub const WORK_COLUMNS: usize = 12;

// The lent rows: low, high and bound of row 0, its marks, and the work row with the further rows. `places` is the number of totals.
// The work row is one flat row, and rows may be longer than `places`, as the call for C has them (`claimtotals_curve`).
#[derive(Drop)]
pub struct Rows<'a> {
    pub low: &'a mut [i64],
    pub high: &'a mut [i64],
    pub bound: &'a mut [i64],
    pub mark: &'a mut [i64],
    pub work: &'a mut [i64],
    pub places: usize,
}

// The same rows, lent to be read.
#[derive(Clone, Copy)]
pub struct SharedRows<'a> {
    pub low: &'a [i64],
    pub high: &'a [i64],
    pub bound: &'a [i64],
    pub mark: &'a [i64],
    pub work: &'a [i64],
    pub places: usize,
}

// Where a column of a further row begins, by its number: low 0, high 1, bound 2. The number is counted with, as in the definition
// `column_at`, so it is no enum.
fn column_at(places: usize, row: usize, number: usize) -> usize
    requires { (1 ≤ row) × (row ≤ 3) × (number ≤ 2) × (places ≤ most_totals) }
    ensures { result ≡ column_at places (row - 1) number }
{
    (3 * (row - 1) + number) * places
}

// Where the marks of a further row begin.
fn marks_at(places: usize, row: usize) -> usize
    requires { (1 ≤ row) × (row ≤ 3) × (places ≤ most_totals) }
    ensures marks { result ≡ marks_at places (row - 1) }
    ensures within { result + places ≤ work_places places }
{
    (ENTRY_COLUMNS + (row - 1)) * places
}

impl<'a> SharedRows<'a> {
    // The column of the work row that begins at `at`.
    fn column(&self, at: usize) -> &'a [i64]
        requires { at + self.now.places ≤ length self.now.work.now }
        ensures { result.now ≡ take self.now.places (drop at self.now.work.now) }
    {
        &self.work[at..at + self.places]
    }

    // The entries of row `row`.
    pub fn row(&self, row: usize) -> Row<'a>
        requires { EntryRoomIn self.now.places (shared_held self.now) × (row ≤ 3) }
        ensures entries { entries_of result ≡ shared_entries self.now row }
        ensures long { RowLong result self.now.places }
    {
        if row == 0 {
            return Row {
                low: self.low,
                high: self.high,
                bound: self.bound,
            };
        }
        Row {
            low: self.column(column_at(self.places, row, 0)),
            high: self.column(column_at(self.places, row, 1)),
            bound: self.column(column_at(self.places, row, 2)),
        }
    }

    // The ends of the entries of row `row`, and their marks.
    pub fn marked_row(&self, row: usize) -> MarkedRow<'a>
        requires { MarkedRoom self.now × (row ≤ 3) }
        ensures low { number_in result.low.now ≡ lows (shared_entries self.now) row }
        ensures high { number_in result.high.now ≡ highs (shared_entries self.now) row }
        ensures mark { exact_in result.mark.now ≡ shared_marks self.now row }
        ensures long { MarkedLong result self.now.places }
    {
        if row == 0 {
            return MarkedRow {
                low: self.low,
                high: self.high,
                mark: self.mark,
            };
        }
        MarkedRow {
            low: self.column(column_at(self.places, row, 0)),
            high: self.column(column_at(self.places, row, 1)),
            mark: self.column(marks_at(self.places, row)),
        }
    }

    // The sums with those of one term added, which reads row `row`. It is made part of its callers, as a pass is: else the curve call has
    // 5 % more instructions at k = 4, m = X = 500. No two of its parameters go together in every call.
    #[inline(always)]
    pub fn add_row(
        &self,
        sums: Entry,
        factor: Factor,
        x: usize,
        weights: &[u64],
        row: usize,
    ) -> Entry
        requires room { EntryRoomIn self.now.places (shared_held self.now) × (x < self.now.places) × (row ≤ 3) }
        requires term_room { TermRoom sums factor x weights.now (shared_entries self.now row) }
        ensures { result ≡ term_sums sums (line_factor factor weights.now) x weights.now (shared_entries self.now row) }
    {
        add_term(sums, factor, x, weights, &self.row(row))
    }

    // Whether all entries of row `row` leave a sum exact that one term uses. No two of the parameters go together in every call.
    pub fn is_row_exact(
        &self,
        factor: Factor,
        settled: Settled,
        x: usize,
        weights: &[u64],
        row: usize,
    ) -> bool
        requires room { MarkedRoom self.now × (x < self.now.places) × (row ≤ 3) }
        requires factor_small { FactorSmall factor × (total_weight weights.now ≤ 1000) }
        requires settled_row { SettledRow settled x (lows (shared_entries self.now) row) (highs (shared_entries self.now) row)
            (shared_marks self.now row) }
        ensures { result ≡ term_exact (line_factor factor weights.now) x weights.now
            (lows (shared_entries self.now) row) (highs (shared_entries self.now) row) (shared_marks self.now row) }
    {
        are_exact(factor, settled, x, weights, &self.marked_row(row))
    }
}

impl Rows<'_> {
    // The same rows, to be read.
    #[inline(always)]
    pub fn shared(&self) -> SharedRows<'_>
        ensures places { result.places ≡ self.now.places }
        ensures entries { shared_held result ≡ held self.now }
        ensures mark { result.mark.now ≡ self.now.mark.now }
    {
        SharedRows {
            low: self.low,
            high: self.high,
            bound: self.bound,
            mark: self.mark,
            work: self.work,
            places: self.places,
        }
    }

    // An entry put at total `x` of row `row`.
    pub fn put(&mut self, row: usize, x: usize, entry: Entry)
        requires { EntryRoom self.old × (row ≤ 3) × (x < self.old.places) }
        ensures same { SameRows self.new self.old }
        ensures entries { held self.new ≡ placed self.old.places (held self.old) row x entry }
        ensures mark { self.new.mark.now ≡ self.old.mark.now }
    {
        if row == 0 {
            self.low[x] = entry.low;
            self.high[x] = entry.high;
            self.bound[x] = entry.bound;
            return;
        }
        self.work[column_at(self.places, row, 0) + x] = entry.low;
        self.work[column_at(self.places, row, 1) + x] = entry.high;
        self.work[column_at(self.places, row, 2) + x] = entry.bound;
    }

    // A mark put at total `x` of row `row`: the flag is all that is put.
    pub fn put_mark(&mut self, row: usize, x: usize, exact: bool)
        requires { MarkRoom self.old × (row ≤ 3) × (x < self.old.places) }
        ensures same { SameRows self.new self.old }
        ensures low { self.new.low.now ≡ self.old.low.now }
        ensures high { self.new.high.now ≡ self.old.high.now }
        ensures bound { self.new.bound.now ≡ self.old.bound.now }
        ensures mark { self.new.mark.now ≡ mark_put self.old.mark.now row x exact }
        ensures work { self.new.work.now ≡ work_put self.old.places self.old.work.now row x exact }
    {
        if row == 0 {
            self.mark[x] = i64::from(exact);
            return;
        }
        self.work[marks_at(self.places, row) + x] = i64::from(exact);
    }
}
