// The sheet reader, and the place of the faulty word. C is told each number by itself.

ghost use Rattle.std.specs.Prelude.{◌≡◌, length};
ghost use Rattle.grammar.specs.Reading.{reading};
ghost use Rattle.sheet.specs.Call.{told, row_on_return};
ghost use Rattle.fault.specs.Call.{part_of, faulty_part};
ghost use Rattle.interface.specs.Handed.{returned, job_of_numbers, tells};

use fault::faulty_part;
use model::refusal::{number_in, place_in};
use sheet::read_sheet;

#[unsafe(no_mangle)]
pub extern "C" fn claimtotals_read_sheet(
    sheet: &[u8],
    row: &mut [u64],
    line: &mut usize,
    order: &mut u64,
    divisor: &mut u64,
    a: &mut [i64; 4],
    b: &mut [i64; 4],
    start_low: &mut u64,
    start_high: &mut u64,
    last: &mut u64,
    zero: &mut u64,
    count: &mut usize,
) -> u64
    ensures answer { tells (returned result line.new)
        (job_of_numbers order.new divisor.new a.new b.new
        start_low.new start_high.new last.new zero.new)
        count.new row.new
        ≡ told (reading (length row.old) sheet.now) }
    ensures row { row.new ≡ row_on_return (reading (length row.old) sheet.now) row.old }
{
    let answer = read_sheet(sheet, row);
    let read = answer.unwrap_or_default();
    let job = read.job;
    *order = job.law.order;
    *divisor = job.law.divisor;
    a.copy_from_slice(&job.law.a);
    b.copy_from_slice(&job.law.b);
    *start_low = job.start.low;
    *start_high = job.start.high;
    *last = job.last;
    *zero = job.zero;
    *count = read.count;
    *line = place_in(&answer);
    number_in(&answer)
}

#[unsafe(no_mangle)]
pub extern "C" fn claimtotals_faulty_word(
    sheet: &[u8],
    places: usize,
    start: &mut usize,
    count: &mut usize,
)
    ensures { part_of start.new count.new ≡ faulty_part places sheet.now }
{
    let part = faulty_part(sheet, places);
    *start = part.start;
    *count = part.count;
}
