// The one step of both calls: an interval of units times a fraction, rounded outward.

ghost use Rattle.std.specs.Prelude.{◌≡◌, pos};
ghost use Rattle.start.specs.Step.{exactly, times, repeated, InUnit};
ghost use Rattle.start.specs.Room.{Proper};

use model::Start;
use model::limits::UNIT;
use outward::Interval;

// A fraction that lies from `low` over `divisor` to `high` over `divisor`. That it is at most 1 is asked for where it multiplies: the
// definition `exactly` makes one of any two numbers.
#[derive(Clone, Copy, Debug, PartialEq, Eq)]
pub struct Factor {
    pub low: u64,
    pub high: u64,
    pub divisor: u64,
}

impl Factor {
    // The fraction `upper` over `lower`.
    pub fn exactly(upper: u64, lower: u64) -> Factor
        ensures { result ≡ exactly upper lower }
    {
        Factor {
            low: upper,
            high: upper,
            divisor: lower,
        }
    }
}

// A chance in units: whole numbers from 0 to U, the low at most the high.
#[derive(Clone, Copy, Debug, PartialEq, Eq)]
pub struct Units {
    pub ends: Interval,
    pub ghost in_unit: { InUnit ends },
}

impl Units {
    // Chance 1: U and U.
    pub const CERTAIN: Units = Units {
        ends: Interval {
            low: UNIT,
            high: UNIT,
        },
    };

    // The interval times the factor, its low rounded down and its high rounded up.
    pub fn times(self, factor: Factor) -> Units
        requires { Proper factor }
        ensures { result.ends ≡ times factor self.ends }
    {
        let ends = self.ends;
        let quotient = outward::divide(
            ends.low * factor.low as i64,
            ends.high * factor.high as i64,
            factor.divisor,
        );
        Units {
            ends: quotient.ends,
        }
    }

    // The interval times the factor, `count` times.
    pub fn repeated(self, factor: Factor, count: u64) -> Units
        requires { Proper factor }
        ensures { result.ends ≡ repeated factor count self.ends }
    {
        (0..count).fold(self, |product, _| product.times(factor))
    }
}

impl From<Units> for Start {
    ghost from_gives = { λ units start. (units.ends.low ≡ pos start.low) × (units.ends.high ≡ pos start.high) };

    fn from(units: Units) -> Start {
        Start {
            low: units.ends.low as u64,
            high: units.ends.high as u64,
        }
    }
}
