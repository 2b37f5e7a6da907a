// One line of a sheet, a keyword and its numbers, and why a sheet is refused.

#![tactic(auto)]

pub mod keywords;
pub mod line;

ghost use Rattle.lines.specs.Reason.{number_of};

use model::refusal::Numbered;

// Why a sheet is refused.
#[derive(Clone, Copy, Debug, PartialEq, Eq)]
pub enum Reason {
    // empty or over 16,384 bytes
    Size = 21,
    // the line due is missing or has no line end
    Missing = 22,
    // wrong keyword or wrong count of words
    Form = 23,
    // a word that is no number here
    Word = 24,
    // k not 1 to 4, or m not 1 to 500
    Limit = 25,
    // bytes follow the final line
    Excess = 26,
    // the row has fewer places than there are weights
    Places = 27,
}

impl Numbered for Reason {
    ghost number_of = { number_of };

    fn number(self) -> u64 {
        self as u64
    }
}
