// Entries, each a low and a high with a bound on their gap, and the outward rule's sums of them.

#![tactic(auto)]

ghost use Rattle.std.specs.Prelude.{◌≡◌, ◌≤◌, ◌<◌, ◌^◌, pos, ◌+ℤ◌};
ghost use Rattle.std.specs.Int.{w64};
ghost use Rattle.std.proofs.Common.{SFits};
ghost use Rattle.outward.specs.Division.{ceil_div};
ghost use Rattle.enclosure.specs.Entry.{plus, minus, allowance, rounded, divides_sums, out_of_range, bound_too_large, EntryFits};

pub mod marks; // marks.rt: whether all entries that a term uses are exact
pub mod pass; // pass.rt: one pass over the severities
mod raised; // raised.rt: the sums over a run, in natural numbers
mod run; // run.rt: severities next to each other whose factors have one sign
pub mod term; // term.rt: the factor of a term

use model::limits::{UNIT, is_either_beyond};
use std::ops::{Add, Sub};

// An entry of a row, in units.
#[derive(Clone, Copy)]
pub struct Entry {
    pub low: i64,
    pub high: i64,
    pub bound: i64,
}

// An entry that comes of a division; `exact` says that neither the low sum nor the high sum left a remainder. The entry is good either way,
// so this is no `Option`.
#[derive(Clone, Copy)]
pub struct Divided {
    pub entry: Entry,
    pub exact: bool,
}

// A row of entries, column by column.
#[derive(Clone, Copy)]
pub struct Row<'a> {
    pub low: &'a [i64],
    pub high: &'a [i64],
    pub bound: &'a [i64],
}

impl Add for Entry {
    type Output = Entry;

    ghost can_add = { λ a b. EntryFits (plus a b) };

    ghost add_gives = { λ a b r. r ≡ plus a b };

    fn add(self, rhs: Entry) -> Entry {
        Entry {
            low: self.low + rhs.low,
            high: self.high + rhs.high,
            bound: self.bound + rhs.bound,
        }
    }
}

// The low of a difference is a low less a high.
impl Sub for Entry {
    type Output = Entry;

    ghost can_sub = { λ a b. EntryFits (minus a b) };

    ghost sub_gives = { λ a b r. r ≡ minus a b };

    fn sub(self, rhs: Entry) -> Entry {
        Entry {
            low: self.low - rhs.high,
            high: self.high - rhs.low,
            bound: self.bound + rhs.bound,
        }
    }
}

impl Entry {
    // The sum of no entries.
    pub const NONE: Entry = Entry {
        low: 0,
        high: 0,
        bound: 0,
    };

    // The sums divided once each, outward; the bound also has the allowance. It asks for room for the one, whatever the divisor is.
    pub fn divided(self, divisor: u64) -> Divided
        requires { (1 ≤ divisor) × (divisor < 2 ^ 63) × SFits w64 (ceil_div self.bound divisor +ℤ pos 1) }
        ensures entry { result.entry ≡ rounded divisor self }
        ensures exact { result.exact ≡ divides_sums divisor self }
    {
        let quotient = outward::divide(self.low, self.high, divisor);
        let bound = outward::ceil_div(self.bound, divisor);
        let entry = Entry {
            low: quotient.ends.low,
            high: quotient.ends.high,
            bound: bound + allowance(divisor),
        };
        Divided {
            entry,
            exact: quotient.exact,
        }
    }

    // Whether the entry's low or high lies outside -2U to 2U.
    pub fn is_out_of_range(self) -> bool
        ensures { result ≡ out_of_range self }
    {
        is_either_beyond(2 * UNIT, self.low, self.high)
    }

    // Whether the entry's bound is above U.
    pub fn is_bound_too_large(self) -> bool
        ensures { result ≡ bound_too_large self }
    {
        UNIT < self.bound
    }
}

// What rounding may add to the gap. Divided by 1, nothing is rounded.
#[tactic(auto, unfolding(crate::specs::Entry::allowance))]
fn allowance(divisor: u64) -> i64
    ensures { result ≡ allowance divisor }
{
    i64::from(1 < divisor)
}
