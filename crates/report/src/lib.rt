// The program's text: from a sheet's bytes to the bytes that `curve` writes.

#![tactic(auto)]

ghost use Rattle.std.specs.Prelude.{◌≡◌, length};
ghost use Rattle.algebra.specs.Slice.{written};
ghost use Rattle.output.specs.Output.{PutsInto};
ghost use Rattle.report.specs.Report.{curve_text, report_text};

use compound::LentRows;
use model::Job;
use model::limits::{MOST_SEVERITIES, MOST_TOTALS};
use output::Output;
use rows::layout::WORK_COLUMNS;
use table::{Table, put_refusal};

// The places of the work row for the most totals.
const WORK_PLACES: usize = WORK_COLUMNS * MOST_TOTALS;

// Room for every text: a line of a table has at most 42 bytes.
pub const TEXT_BYTES: usize = 21_504;

// The table of a job's curve, or the line that refuses the job.
fn put_curve(out: &mut Output, job: Job, weights: &[u64])
    ensures { PutsInto (curve_text job weights.now) out.old out.new }
{
    let mut low = [0; MOST_TOTALS];
    let mut high = [0; MOST_TOTALS];
    let mut bound = [0; MOST_TOTALS];
    let mut mark = [0; MOST_TOTALS];
    let mut work = [0; WORK_PLACES];
    let mut rows = LentRows {
        low: &mut low,
        high: &mut high,
        bound: &mut bound,
        mark: &mut mark,
        work: &mut work,
    };
    match compound::curve(job, weights, &mut rows) {
        Ok(()) => {
            let table = Table {
                totals: job.last as usize + 1,
                low: &low,
                high: &high,
                bound: &bound,
                mark: &mark,
            };
            table.put(out);
        }
        Err(refusal) => put_refusal(out, refusal),
    }
}

// What the program writes on a sheet.
fn put_report(out: &mut Output, sheet: &[u8])
    ensures { PutsInto (report_text sheet.now) out.old out.new }
{
    let mut row = [0; MOST_SEVERITIES];
    match sheet::reader::read_text(sheet, MOST_SEVERITIES, &mut row) {
        Ok(read) => put_curve(out, read.job, &row[..read.count]),
        Err(refusal) => put_refusal(out, refusal),
    }
}

// Puts it into the first places of `out`; the answer is the number of its bytes.
pub fn report(sheet: &[u8], out: &mut [u8; TEXT_BYTES]) -> usize
    ensures count { result ≡ length (report_text sheet.now) }
    ensures bytes { out.new ≡ written (report_text sheet.now) out.old }
{
    let mut text = Output::new(out);
    put_report(&mut text, sheet);
    text.at
}
