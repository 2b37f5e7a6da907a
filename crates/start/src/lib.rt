// The start from the law's own name: from a mean, or from a chance and a number of trials. Every number is taken, and refused as the
// paper lists it.

#![tactic(auto)]

mod scale; // an interval of units times a fraction
mod series; // the exponential series

ghost use Rattle.std.specs.Prelude.{◌≡◌};
ghost use Rattle.start.specs.Call.{number_of, paper, wrong_lower, wrong_mean, start_of_mean, start_of_trials};

use model::Start;
use model::limits::{UNIT, is_outside};
use model::refusal::Numbered;
use scale::{Factor, Units};
use series::Rest;

// e to the -1 in units, rounded down and up.
const EXP_MINUS_ONE: Factor = Factor {
    low: 367_879_441,
    high: 367_879_442,
    divisor: UNIT as u64,
};

// Why a call refuses, and the paper's number of it.
#[derive(Clone, Copy, Debug, PartialEq, Eq)]
pub enum Reason {
    // A lower number that is not 1 to 1,000, or a mean above 20.
    Fraction = 41,
    // A chance of 1 or more.
    Chance = 42,
    // A number of trials that is not 1 to 1,000.
    Trials = 43,
}

impl Numbered for Reason {
    ghost number_of = { number_of };

    fn number(self) -> u64 {
        self as u64
    }
}

fn is_wrong_lower(lower: u64) -> bool
    ensures { result ≡ wrong_lower lower }
{
    is_outside(1, 1000, lower)
}

fn is_wrong_mean(upper: u64, lower: u64) -> bool
    ensures { result ≡ wrong_mean upper lower }
{
    is_wrong_lower(lower) || 20 * lower < upper
}

// The start of a law of mean `upper` over `lower`: the series of the rest, then a factor for each whole.
pub fn mean(upper: u64, lower: u64) -> Result<Start, Reason>
    ensures { paper result ≡ start_of_mean upper lower }
{
    if is_wrong_mean(upper, lower) {
        return Err(Reason::Fraction);
    }
    let rest = Rest {
        upper: upper % lower,
        lower,
    };
    let units = rest.partial_sums().repeated(EXP_MINUS_ONE, upper / lower);
    Ok(units.into())
}

// The start of a binomial law of `trials` trials, each of chance `upper` over `lower`. A negative binomial law of whole shape has the same,
// with its shape for the trials.
pub fn trials(upper: u64, lower: u64, trials: u64) -> Result<Start, Reason>
    ensures { paper result ≡ start_of_trials upper lower trials }
{
    if is_wrong_lower(lower) {
        return Err(Reason::Fraction);
    }
    if lower <= upper {
        return Err(Reason::Chance);
    }
    if is_outside(1, 1000, trials) {
        return Err(Reason::Trials);
    }
    let no_claim = Factor::exactly(lower - upper, lower);
    let units = Units::CERTAIN.repeated(no_claim, trials);
    Ok(units.into())
}
