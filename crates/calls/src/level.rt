// The level queries. Their record: the number of lows, the lows, the number of highs, the highs, and the level. Their line: number, place
// and total of sure, and then of possible.

use crate::{input, show};
use intervals::Intervals;
use model::refusal::{Refusal, number_in, place_in};
use quantile::Reason;
use std::io::{Read, Write};

// More places than a query takes.
const PLACES: usize = 512;

fn show_answer<W: Write>(out: &mut W, answer: Result<usize, Refusal<Reason>>) {
    show::answer(out, number_in(&answer), place_in(&answer));
    show::next(out, answer.unwrap_or_default());
}

fn show_queries<W: Write>(out: &mut W, rows: Intervals, level: i64) {
    show_answer(out, quantile::sure(rows, level));
    show::text(out, b" ");
    show_answer(out, quantile::possible(rows, level));
}

pub fn run<R: Read, W: Write>(input: &mut R, out: &mut W) {
    let mut low = [0; PLACES];
    let mut high = [0; PLACES];
    let rows = Intervals {
        low: input::numbers(input, &mut low),
        high: input::numbers(input, &mut high),
    };
    show_queries(out, rows, input::number(input));
    show::text(out, b"\n");
}
