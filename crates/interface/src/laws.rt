// Laws as two publications write them: two exported calls, both of which C calls by name.

ghost use Rattle.std.specs.Prelude.{◌≡◌};
ghost use Rattle.published.specs.Call.{paper, law_of_panjer_willmot, law_of_hesselager};
ghost use Rattle.interface.specs.Handed.{returned, tells_law, first_order};

use model::Law;
use model::refusal::number_in;
use published::Reason;

// After a refusal all numbers are 0.
fn hand_over(answer: Result<Law, Reason>, divisor: &mut u64, a: &mut i64, b: &mut i64) -> u64
    ensures { tells_law (returned result 0) divisor.new a.new b.new ≡ first_order (paper answer) }
{
    let law = answer.unwrap_or_default();
    *divisor = law.divisor;
    *a = law.a[0];
    *b = law.b[0];
    number_in(&answer)
}

#[unsafe(no_mangle)]
pub extern "C" fn claimtotals_law_panjer_willmot(
    alpha_0: i64,
    alpha_1: i64,
    beta_0: i64,
    beta_1: i64,
    divisor: &mut u64,
    a: &mut i64,
    b: &mut i64,
) -> u64
    ensures { tells_law (returned result 0) divisor.new a.new b.new
        ≡ first_order (law_of_panjer_willmot alpha_0 alpha_1 beta_0 beta_1) }
{
    hand_over(
        published::panjer_willmot(alpha_0, alpha_1, beta_0, beta_1),
        divisor,
        a,
        b,
    )
}

#[unsafe(no_mangle)]
pub extern "C" fn claimtotals_law_hesselager(
    b_0: i64,
    b_1: i64,
    a_0: i64,
    a_1: i64,
    divisor: &mut u64,
    a: &mut i64,
    b: &mut i64,
) -> u64
    ensures { tells_law (returned result 0) divisor.new a.new b.new
        ≡ first_order (law_of_hesselager b_0 b_1 a_0 a_1) }
{
    hand_over(published::hesselager(b_0, b_1, a_0, a_1), divisor, a, b)
}
