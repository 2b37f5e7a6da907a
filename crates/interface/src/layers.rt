// Layer costs. C hands over two arrays and a count.

ghost use Rattle.std.specs.Prelude.{◌≡◌};
ghost use Rattle.layer.specs.Call.{tells_costs, layer_list, layer_costs};
ghost use Rattle.interface.specs.Handed.{returned};

use intervals::Intervals;
use layer::{LayerList, MOST_LAYERS, layers};
use model::refusal::{number_in, place_in};

#[unsafe(no_mangle)]
pub extern "C" fn claimtotals_layers(
    low: &[i64],
    high: &[i64],
    attachments: &[usize; MOST_LAYERS],
    limits: &[usize; MOST_LAYERS],
    count: usize,
    answer_low: &mut [i64],
    answer_high: &mut [i64],
    place: &mut usize,
) -> u64
    ensures { tells_costs (returned result place.new) answer_low.new answer_high.new
        ≡ layer_costs low.now high.now (layer_list count attachments.now limits.now)
        answer_low.old answer_high.old }
{
    let list = LayerList {
        count,
        attachments: *attachments,
        limits: *limits,
    };
    let answer = layers(Intervals { low, high }, &list, answer_low, answer_high);
    *place = place_in(&answer);
    number_in(&answer)
}
