// The level queries: two exported calls, both of which C calls by name.

ghost use Rattle.std.specs.Prelude.{◌≡◌};
ghost use Rattle.quantile.specs.Call.{paper, sure_query, possible_query};
ghost use Rattle.interface.specs.Handed.{returned, tells_total};

use intervals::Intervals;
use model::refusal::{Refusal, number_in, place_in};
use quantile::Reason;

fn hand_over(answer: Result<usize, Refusal<Reason>>, place: &mut usize, total: &mut usize) -> u64
    ensures { tells_total (returned result place.new) total.new ≡ paper answer }
{
    *place = place_in(&answer);
    *total = answer.unwrap_or_default();
    number_in(&answer)
}

#[unsafe(no_mangle)]
pub extern "C" fn claimtotals_sure(
    low: &[i64],
    high: &[i64],
    level: i64,
    place: &mut usize,
    total: &mut usize,
) -> u64
    ensures { tells_total (returned result place.new) total.new
        ≡ sure_query low.now high.now level }
{
    hand_over(quantile::sure(Intervals { low, high }, level), place, total)
}

#[unsafe(no_mangle)]
pub extern "C" fn claimtotals_possible(
    low: &[i64],
    high: &[i64],
    level: i64,
    place: &mut usize,
    total: &mut usize,
) -> u64
    ensures { tells_total (returned result place.new) total.new
        ≡ possible_query low.now high.now level }
{
    hand_over(
        quantile::possible(Intervals { low, high }, level),
        place,
        total,
    )
}
