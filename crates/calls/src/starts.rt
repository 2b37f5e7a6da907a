// The calls for a start. Their records: the fraction's upper and lower number, and for trials their number. Their line: number, low and
// high. What each reads is what its call takes, in that order; so it is with laws.

use crate::{input, show};
use model::Start;
use model::refusal::number_in;
use start::Reason;
use std::io::{Read, Write};

fn show_answer<W: Write>(out: &mut W, answer: Result<Start, Reason>) {
    show::number(out, number_in(&answer));
    let start = answer.unwrap_or_default();
    show::next(out, start.low);
    show::next(out, start.high);
    show::text(out, b"\n");
}

pub fn run_mean<R: Read, W: Write>(input: &mut R, out: &mut W) {
    let upper = input::number(input);
    let lower = input::number(input);
    show_answer(out, start::mean(upper, lower));
}

pub fn run_trials<R: Read, W: Write>(input: &mut R, out: &mut W) {
    let upper = input::number(input);
    let lower = input::number(input);
    let trials = input::number(input);
    show_answer(out, start::trials(upper, lower, trials));
}
