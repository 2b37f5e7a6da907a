// The calls for a law. Their records: the four numbers of a publication's line, in the call's order. Their line: number; k, D, A_1 to A_4
// and B_1 to B_4.

use crate::{input, show};
use model::Law;
use model::refusal::number_in;
use published::Reason;
use std::io::{Read, Write};

fn show_answer<W: Write>(out: &mut W, answer: Result<Law, Reason>) {
    show::number(out, number_in(&answer));
    show::text(out, b";");
    show::law(out, answer.unwrap_or_default());
    show::text(out, b"\n");
}

pub fn run_panjer_willmot<R: Read, W: Write>(input: &mut R, out: &mut W) {
    let alpha_0 = input::number(input);
    let alpha_1 = input::number(input);
    let beta_0 = input::number(input);
    let beta_1 = input::number(input);
    show_answer(
        out,
        published::panjer_willmot(alpha_0, alpha_1, beta_0, beta_1),
    );
}

pub fn run_hesselager<R: Read, W: Write>(input: &mut R, out: &mut W) {
    let b_0 = input::number(input);
    let b_1 = input::number(input);
    let a_0 = input::number(input);
    let a_1 = input::number(input);
    show_answer(out, published::hesselager(b_0, b_1, a_0, a_1));
}
