// Makes the calls that standard input asks for, and writes a line about each: its answer, and what it put into which places of the rows
// lent to it. A record of the input is a number for the kind of call, and then what the module of that call reads.

#![tactic(auto)]

mod curve;
mod input;
mod kind;
mod laws;
mod layers;
mod level;
mod reader;
mod show;
mod starts;

use kind::{Kind, UnknownKind};
use std::io::{Read, Write};

// One record. At the end of the input the number is 0, which no kind has.
fn next_call<R: Read, W: Write>(input: &mut R, out: &mut W) -> Result<(), UnknownKind> {
    match Kind::try_from(input::number::<R, u64>(input))? {
        Kind::Reader => reader::run(input, out),
        Kind::Curve => curve::run(input, out),
        Kind::Level => level::run(input, out),
        Kind::Mean => starts::run_mean(input, out),
        Kind::Trials => starts::run_trials(input, out),
        Kind::PanjerWillmot => laws::run_panjer_willmot(input, out),
        Kind::Hesselager => laws::run_hesselager(input, out),
        Kind::Layers => layers::run(input, out),
    }
    Ok(())
}

// A proved loop has to end, and nothing says that the input does: the count of turns is one that no input uses up.
fn main(rt: HostRuntime) {
    let mut input = rt.stdin();
    let mut out = rt.stdout();
    for _ in 0..u64::MAX {
        if next_call(&mut input, &mut out).is_err() {
            return;
        }
    }
}
