// The factor of a term: a line in the severity, times the severity's weight.

ghost use Rattle.std.specs.Prelude.{◌≡◌, ◌≤◌};
ghost use Rattle.model.specs.Limits.{most_last};
ghost use Rattle.enclosure.specs.Term.{line_at, factor_of};
ghost use Rattle.enclosure.specs.Run.{FactorSmall, negative};

use std::ops::Neg;

// What multiplies the entry at x - y: (`constant` + `slope` times y) times w(y). That both are small is asked for and is no ghost field:
// `negative` (specs/Run) and `term_factor` (rows/specs/Progress) make factors of any numbers, and would have to carry its proof.
#[derive(Clone, Copy)]
pub struct Factor {
    pub constant: i64,
    pub slope: i64,
}

impl Factor {
    // The line at severity `y`.
    pub fn line_at(self, y: usize) -> i64
        requires { FactorSmall self × (y ≤ most_last) }
        ensures { result ≡ line_at self y }
    {
        self.slope * y as i64 + self.constant
    }

    // The factor of severity `y`, whose weight is `weight`.
    #[tactic(auto, using(crate::proofs::Sizes::factor_fits))]
    pub fn at(self, y: usize, weight: u64) -> i64
        requires { FactorSmall self × (y ≤ most_last) × (weight ≤ 1000) }
        ensures { result ≡ factor_of self y weight }
    {
        self.line_at(y) * weight as i64
    }
}

impl Neg for Factor {
    type Output = Factor;

    ghost can_neg = { FactorSmall };

    ghost neg_gives = { λ factor result. result ≡ negative factor };

    fn neg(self) -> Factor {
        Factor {
            constant: -self.constant,
            slope: -self.slope,
        }
    }
}
