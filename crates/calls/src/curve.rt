// The curve call. Its record: k, D, A_1 to A_4, B_1 to B_4, s, t, X, w(0), the number of weights, the weights, and how many places of the
// low, the high, the bound, the mark and the work row are lent. Its line: number and place; then, for each of these rows, the places that
// were written, also past those that were lent, and what they hold.

use crate::{input, show};
use compound::LentRows;
use model::refusal::{number_in, place_in};
use model::{Job, Law, Start};
use std::io::{Read, Write};

// The rows that are lent are the fronts of arrays of so many places, more than a call asks for.
const PLACES: usize = 512;

const WORK_PLACES: usize = 6_100;

// What each place holds before the call. No entry is as low.
const UNTOUCHED: i64 = i64::MIN;

fn read_terms<R: Read>(input: &mut R) -> [i64; 4] {
    let mut terms = [0; 4];
    for term in &mut terms {
        *term = input::number(input);
    }
    terms
}

fn read_job<R: Read>(input: &mut R) -> Job {
    Job {
        law: Law {
            order: input::number(input),
            divisor: input::number(input),
            a: read_terms(input),
            b: read_terms(input),
        },
        start: Start {
            low: input::number(input),
            high: input::number(input),
        },
        last: input::number(input),
        zero: input::number(input),
    }
}

pub fn run<R: Read, W: Write>(input: &mut R, out: &mut W) {
    let job = read_job(input);
    let mut weights = [0; PLACES];
    let weights = input::numbers(input, &mut weights);
    let mut low = [UNTOUCHED; PLACES];
    let mut high = [UNTOUCHED; PLACES];
    let mut bound = [UNTOUCHED; PLACES];
    let mut mark = [UNTOUCHED; PLACES];
    let mut work = [UNTOUCHED; WORK_PLACES];
    let mut rows = LentRows {
        low: input::front(input, &mut low),
        high: input::front(input, &mut high),
        bound: input::front(input, &mut bound),
        mark: input::front(input, &mut mark),
        work: input::front(input, &mut work),
    };
    let answer = compound::curve(job, weights, &mut rows);
    show::answer(out, number_in(&answer), place_in(&answer));
    for row in [&low[..], &high[..], &bound[..], &mark[..], &work[..]] {
        show::row(out, row, UNTOUCHED);
    }
    show::text(out, b"\n");
}
