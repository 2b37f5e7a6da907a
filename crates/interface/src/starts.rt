// The start from the law's own name: two exported calls, both of which C calls by name.

ghost use Rattle.std.specs.Prelude.{◌≡◌};
ghost use Rattle.start.specs.Call.{paper, start_of_mean, start_of_trials};
ghost use Rattle.interface.specs.Handed.{returned, tells_start};

use model::Start;
use model::refusal::number_in;
use start::Reason;

// After a refusal low and high are 0.
fn hand_over(answer: Result<Start, Reason>, low: &mut u64, high: &mut u64) -> u64
    ensures { tells_start (returned result 0) low.new high.new ≡ paper answer }
{
    let start = answer.unwrap_or_default();
    *low = start.low;
    *high = start.high;
    number_in(&answer)
}

#[unsafe(no_mangle)]
pub extern "C" fn claimtotals_start_mean(
    upper: u64,
    lower: u64,
    low: &mut u64,
    high: &mut u64,
) -> u64
    ensures { tells_start (returned result 0) low.new high.new ≡ start_of_mean upper lower }
{
    hand_over(start::mean(upper, lower), low, high)
}

#[unsafe(no_mangle)]
pub extern "C" fn claimtotals_start_trials(
    upper: u64,
    lower: u64,
    trials: u64,
    low: &mut u64,
    high: &mut u64,
) -> u64
    ensures { tells_start (returned result 0) low.new high.new ≡ start_of_trials upper lower trials }
{
    hand_over(start::trials(upper, lower, trials), low, high)
}
