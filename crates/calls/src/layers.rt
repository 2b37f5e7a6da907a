// Layer costs. Their record: the number of lows, the lows, the number of highs, the highs, the count of layers, how many attachments
// follow, these, how many limits follow, these, and how many places of the low and the high answer row are lent. Further attachments and
// limits are 0. Their line: number and place; then, for each answer row, the places that were written, also past those that were lent, and
// what they hold.

use crate::{input, show};
use intervals::Intervals;
use layer::{LayerList, MOST_LAYERS};
use model::refusal::{number_in, place_in};
use std::io::{Read, Write};

// More places than a call takes.
const PLACES: usize = 512;

// The answer rows that are lent are the fronts of arrays of so many places, more than a call writes.
const ANSWER_PLACES: usize = 80;

// What each of their places holds before the call. No cost is as low.
const MARK: i64 = i64::MIN;

fn read_list<R: Read>(input: &mut R) -> LayerList {
    let count = input::number(input);
    let mut attachments = [0usize; MOST_LAYERS];
    input::numbers(input, &mut attachments);
    let mut limits = [0usize; MOST_LAYERS];
    input::numbers(input, &mut limits);
    LayerList {
        count,
        attachments,
        limits,
    }
}

// Makes the call with the fronts of the answer rows, as long as the record says.
fn call<R: Read, W: Write>(
    input: &mut R,
    out: &mut W,
    rows: Intervals,
    answer_low: &mut [i64],
    answer_high: &mut [i64],
) {
    let list = read_list(input);
    let answer_low = input::front(input, answer_low);
    let answer_high = input::front(input, answer_high);
    let answer = layer::layers(rows, &list, answer_low, answer_high);
    show::answer(out, number_in(&answer), place_in(&answer));
}

pub fn run<R: Read, W: Write>(input: &mut R, out: &mut W) {
    let mut low = [0; PLACES];
    let mut high = [0; PLACES];
    let mut answer_low = [MARK; ANSWER_PLACES];
    let mut answer_high = [MARK; ANSWER_PLACES];
    let rows = Intervals {
        low: input::numbers(input, &mut low),
        high: input::numbers(input, &mut high),
    };
    call(input, out, rows, &mut answer_low, &mut answer_high);
    show::row(out, &answer_low, MARK);
    show::row(out, &answer_high, MARK);
    show::text(out, b"\n");
}
