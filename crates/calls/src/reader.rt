// The sheet reader and the faulty word's call. Their record: how many places of the row for weights are lent, the number of the sheet's
// bytes, and the bytes. Their line: number and line; the job, from k to w(0) as in the record of the curve call, and the count of its
// weights; the places of the row that were written, from 1, and what they hold; the bytes of the faulty word.

ghost use Rattle.std.specs.Prelude.{◌≤◌, length};

use crate::{input, show};
use lines::Reason;
use model::Job;
use model::refusal::{Refusal, number_in, place_in};
use sheet::Sheet;
use std::io::{Read, Write};

// The row that is lent is the front of an array of so many places, more than a call asks for.
const PLACES: usize = 512;

// More bytes than a sheet may have.
const SPACE: usize = 65_536;

// What each place holds before the call. No weight is as large.
const MARK: u64 = u64::MAX;

fn show_job<W: Write>(out: &mut W, job: Job) {
    show::law(out, job.law);
    show::next(out, job.start.low);
    show::next(out, job.start.high);
    show::next(out, job.last);
    show::next(out, job.zero);
}

fn show_answer<W: Write>(out: &mut W, answer: Result<Sheet, Refusal<Reason>>) {
    show::answer(out, number_in(&answer), place_in(&answer));
    show::text(out, b";");
    let sheet = answer.unwrap_or_default();
    show_job(out, sheet.job);
    show::next(out, sheet.count);
}

fn show_word<W: Write>(out: &mut W, word: &[u8]) {
    show::text(out, b";");
    for b in word {
        show::hex(out, *b);
    }
}

// Makes both calls for the front of the row, as long as `places` says.
fn call<W: Write>(out: &mut W, sheet: &[u8], row: &mut [u64], places: usize)
    requires { places ≤ length row.old }
{
    show_answer(out, sheet::read_sheet(sheet, &mut row[..places]));
    show::row_from(out, 1, row, MARK);
    show_word(out, fault::faulty_word(sheet, places));
}

pub fn run<R: Read, W: Write>(input: &mut R, out: &mut W) {
    let mut row = [MARK; PLACES];
    let places = input::at_most(input, PLACES);
    let mut space = [0; SPACE];
    let sheet = input::bytes(input, &mut space);
    call(out, sheet, &mut row, places);
    show::text(out, b"\n");
}
