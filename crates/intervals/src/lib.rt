// A row of lows and a row of highs, total by total: the checks 31 and 33, which every call on such rows has.

#![tactic(auto)]

ghost use Rattle.std.specs.Prelude.{◌≡◌, ◌∷◌, [], false, length, IfOk};
ghost use Rattle.model.specs.Answer.{answer_of, first_refusal};
ghost use Rattle.intervals.specs.Checks.{wrong_lengths, wrong_entry, first_wrong_entry, Summable};
ghost use Rattle.intervals.specs.Checks.{lengths_condition, entries_condition};

use model::limits::{MOST_TOTALS, UNIT, is_either_beyond};
use model::refusal::{Numbered, Refusal};

// The rows as they are handed over, of any lengths.
#[derive(Clone, Copy)]
pub struct Intervals<'a> {
    pub low: &'a [i64],
    pub high: &'a [i64],
}

// A row whose sums fit 64 bits.
#[derive(Clone, Copy)]
pub struct SummableRow<'a> {
    pub entries: &'a [i64],
    ghost summable: { Summable entries.now },
}

// Rows that pass both checks.
#[derive(Clone, Copy)]
pub struct CheckedIntervals<'a> {
    pub low: SummableRow<'a>,
    pub high: SummableRow<'a>,
    ghost same_length: { length low.entries.now ≡ length high.entries.now },
}

impl<'a> Intervals<'a> {
    // 33: the first place with a wrong entry, as far as both rows go.
    pub fn first_wrong_entry(self) -> Option<usize>
        ensures { result ≡ first_wrong_entry self.entry.low.now self.entry.high.now }
    {
        self.low
            .iter()
            .zip(self.high)
            .position(|(low, high)| is_wrong_entry(*low, *high))
    }

    // The check 31, by the caller's own reason.
    #[tactic(auto, unfolding(model::specs::Answer::first_refusal))]
    pub fn check_lengths<R: Numbered>(self, reason: R) -> Result<(), Refusal<R>>
        ensures { answer_of R.number_of result
            ≡ first_refusal (lengths_condition (R.number_of reason) self.entry.low.now self.entry.high.now ∷ []) }
    {
        if are_wrong_rows(self.low.len(), self.high.len()) {
            return Err(reason.into());
        }
        Ok(())
    }

    // The check 33, likewise, after 31.
    #[tactic(auto, unfolding(model::specs::Answer::first_refusal))]
    pub fn check_entries<R: Numbered>(self, reason: R) -> Result<CheckedIntervals<'a>, Refusal<R>>
        requires { wrong_lengths (length self.low.now) (length self.high.now) ≡ false }
        ensures answer { answer_of R.number_of result
            ≡ first_refusal (entries_condition (R.number_of reason) self.entry.low.now self.entry.high.now ∷ []) }
        ensures same_rows { IfOk result (λ rows.
            (rows.low.entries.now ≡ self.entry.low.now) × (rows.high.entries.now ≡ self.entry.high.now)) }
    {
        match self.first_wrong_entry() {
            Some(place) => Err(Refusal { reason, place }),
            None => Ok(CheckedIntervals {
                low: SummableRow { entries: self.low },
                high: SummableRow { entries: self.high },
            }),
        }
    }
}

// 31: whether rows of these lengths are empty, too long or unequal.
pub fn are_wrong_rows(low: usize, high: usize) -> bool
    ensures { result ≡ wrong_lengths low high }
{
    !(1..=MOST_TOTALS).contains(&low) || low != high
}

fn is_wrong_entry(low: i64, high: i64) -> bool
    ensures { result ≡ wrong_entry low high }
{
    is_either_beyond(2 * UNIT, low, high) || high < low
}
