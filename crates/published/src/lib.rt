// A law of order 1 from the line that a publication has for it. The numbers may have any content: the calls refuse what the paper lists.

#![tactic(auto)]

ghost use Rattle.std.specs.Prelude.{◌≡◌, ◌||◌, ◌≤◌, nat_abs};
ghost use Rattle.model.specs.Limits.{beyond};
ghost use Rattle.published.specs.Call.{number_of, paper, turned_law};
ghost use Rattle.published.specs.Call.{law_of_line, law_of_panjer_willmot, law_of_hesselager};

use model::Law;
use model::limits::{is_beyond, is_either_beyond};
use model::refusal::Numbered;

// Why a call refuses, and the paper's number of it.
#[derive(Clone, Copy, Debug, PartialEq, Eq)]
pub enum Reason {
    // The constant on the left is not 0.
    Constant = 51,
    // The coefficient of n on the left is 0.
    Coefficient = 52,
    // The divisor or a term lies outside the limits of a job.
    Limits = 53,
}

impl Numbered for Reason {
    ghost number_of = { number_of };

    fn number(self) -> u64 {
        self as u64
    }
}

// A line with `divisor` times n on the left, and on the right what comes to `a` times n and `b`.
#[derive(Clone, Copy, Debug, PartialEq, Eq)]
struct Line {
    divisor: i64,
    a: i64,
    b: i64,
}

impl Line {
    // 53, looked at before the signs are turned: sizes stay, and the least number of 64 bits has no negative.
    fn is_outside(self) -> bool
        ensures { result ≡ (beyond 1000 self.divisor || (beyond 1000 self.a || beyond 1000 self.b)) }
    {
        is_beyond(1000, self.divisor) || is_either_beyond(1000, self.a, self.b)
    }

    // The law of the line, all signs turned where the divisor is negative. No `signum`: it is 0 for a divisor of 0, where the clause holds
    // too.
    fn turned(self) -> Law
        requires { (nat_abs self.divisor ≤ 1000) × (nat_abs self.a ≤ 1000) × (nat_abs self.b ≤ 1000) }
        ensures { result ≡ turned_law self.divisor self.a self.b }
    {
        let sign = if self.divisor < 0 { -1 } else { 1 };
        Law {
            order: 1,
            divisor: self.divisor.unsigned_abs(),
            a: [sign * self.a, 0, 0, 0],
            b: [sign * self.b, 0, 0, 0],
        }
    }

    // The law of the line, where `constant` stands on the left as well.
    fn law(self, constant: i64) -> Result<Law, Reason>
        ensures { paper result ≡ law_of_line constant self.divisor self.a self.b }
    {
        if constant != 0 {
            return Err(Reason::Constant);
        }
        if self.divisor == 0 {
            return Err(Reason::Coefficient);
        }
        if self.is_outside() {
            return Err(Reason::Limits);
        }
        Ok(self.turned())
    }
}

// The law of (alpha_0 + alpha_1 n) p_n = (beta_0 + beta_1 (n-1)) p_(n-1), which is how Panjer and Willmot write it.
pub fn panjer_willmot(alpha_0: i64, alpha_1: i64, beta_0: i64, beta_1: i64) -> Result<Law, Reason>
    ensures { paper result ≡ law_of_panjer_willmot alpha_0 alpha_1 beta_0 beta_1 }
{
    let line = Line {
        divisor: alpha_1,
        a: beta_1,
        // a difference that does not fit is outside the limits, and so is the number that stands for it
        b: beta_0.saturating_sub(beta_1),
    };
    line.law(alpha_0)
}

// The law of (b_0 + b_1 n) p_n = (a_0 + a_1 n) p_(n-1), which is how Hesselager writes it.
pub fn hesselager(b_0: i64, b_1: i64, a_0: i64, a_1: i64) -> Result<Law, Reason>
    ensures { paper result ≡ law_of_hesselager b_0 b_1 a_0 a_1 }
{
    let line = Line {
        divisor: b_1,
        a: a_1,
        b: a_0,
    };
    line.law(b_0)
}
