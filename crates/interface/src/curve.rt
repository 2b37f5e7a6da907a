// The curve call. C hands over the numbers of the job one by one, and each row by itself.

ghost use Rattle.std.specs.Prelude.{◌≡◌};
ghost use Rattle.compound.specs.Lent.{lent_rows};
ghost use Rattle.compound.specs.Call.{curve_answer, curve_lent};
ghost use Rattle.interface.specs.Handed.{returned, job_of_numbers};

use compound::{LentRows, curve};
use model::refusal::{number_in, place_in};
use model::{Job, Law, Start};

#[unsafe(no_mangle)]
pub extern "C" fn claimtotals_curve(
    order: u64,
    divisor: u64,
    a: &[i64; 4],
    b: &[i64; 4],
    start_low: u64,
    start_high: u64,
    last: u64,
    zero: u64,
    weights: &[u64],
    low: &mut [i64],
    high: &mut [i64],
    bound: &mut [i64],
    mark: &mut [i64],
    work: &mut [i64],
    place: &mut usize,
) -> u64
    ensures answer { returned result place.new
        ≡ curve_answer (job_of_numbers order divisor a.now b.now start_low start_high last zero)
        weights.now
        (lent_rows low.old high.old bound.old mark.old work.old) }
    ensures rows { lent_rows low.new high.new bound.new mark.new work.new
        ≡ curve_lent (job_of_numbers order divisor a.now b.now start_low start_high last zero)
        weights.now
        (lent_rows low.old high.old bound.old mark.old work.old) }
{
    let law = Law {
        order,
        divisor,
        a: *a,
        b: *b,
    };
    let start = Start {
        low: start_low,
        high: start_high,
    };
    let job = Job {
        law,
        start,
        last,
        zero,
    };
    let mut lent = LentRows {
        low,
        high,
        bound,
        mark,
        work,
    };
    let answer = curve(job, weights, &mut lent);
    *place = place_in(&answer);
    number_in(&answer)
}
