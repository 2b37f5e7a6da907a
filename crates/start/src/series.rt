// The partial sums of the exponential series for minus the rest of a mean.

ghost use Rattle.std.specs.Prelude.{◌≡◌, ◌≤◌, ◌<◌};
ghost use Rattle.start.specs.Call.{next_term, series};
ghost use Rattle.start.specs.Room.{plus_part, SumRoom};

use super::scale::{Factor, Units};
use outward::Interval;

// The rest of a mean, `upper` over `lower`, which is below 1.
#[derive(Clone, Copy, Debug, PartialEq, Eq)]
pub struct Rest {
    pub upper: u64,
    pub lower: u64,
    pub ghost below: { upper < lower },
    pub ghost lower_most: { lower ≤ 1000 },
}

// The sum with term `index` added, where the index is even, or taken off, where it is odd.
fn add_part(index: u64, term: Units, sum: Interval) -> Interval
    requires { SumRoom sum }
    ensures { result ≡ plus_part index term.ends sum }
{
    let part = term.ends;
    if index % 2 == 0 {
        Interval {
            low: sum.low + part.low,
            high: sum.high + part.high,
        }
    } else {
        Interval {
            low: sum.low - part.high,
            high: sum.high - part.low,
        }
    }
}

impl Rest {
    // Term `index` from the term before it.
    fn next_term(self, index: u64, term: Units) -> Units
        requires { (1 ≤ index) × (index ≤ 13) }
        ensures { result.ends ≡ next_term self.upper self.lower index term.ends }
    {
        term.times(Factor::exactly(self.upper, self.lower * index))
    }

    // From the low of the sum to term 13 to the high of the sum to term 12. The loop counts terms, whose numbers the terms are made of.
    pub fn partial_sums(self) -> Units
        ensures { result.ends ≡ series self.upper self.lower }
    {
        let mut term = Units::CERTAIN;
        let mut sum = Interval { low: 0, high: 0 };
        for j in 0..13 {
            sum = add_part(j, term, sum);
            term = self.next_term(j + 1, term);
        }
        // term 13 belongs to the low alone
        let ends = Interval {
            low: add_part(13, term, sum).low,
            high: sum.high,
        };
        Units { ends }
    }
}
