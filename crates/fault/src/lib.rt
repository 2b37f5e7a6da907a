// The faulty word: the word that refusal 24 of the sheet reader is about, as a part of the sheet.

#![tactic(auto)]

mod word;

ghost use Rattle.std.specs.Prelude.{◌≡◌, ◌+◌};
ghost use Rattle.fault.specs.Call.{faulty_word, faulty_part};

use lines::Reason;
use model::limits::MOST_SEVERITIES;
use sheet::reader::read_text;
use word::first_faulty;

// A part of a sheet: so many bytes from `start` on, which is counted from 0. So C is told it (`claimtotals_faulty_word`).
#[derive(Clone, Copy, Debug, PartialEq, Eq)]
pub struct Part {
    pub start: usize,
    pub count: usize,
}

// Where the word that refusal 24 is about stands in the sheet; an empty part at its front after any other answer. `places` is the number of
// places of the row that the sheet was read for, by which alone the definition `faulty_part` judges it.
pub fn faulty_part(sheet: &[u8], places: usize) -> Part
    ensures { result ≡ faulty_part places sheet.now }
{
    let mut weights = [0u64; MOST_SEVERITIES];
    match read_text(sheet, places, &mut weights) {
        Err(refusal) if refusal.reason == Reason::Word => first_faulty(sheet, refusal.place),
        _ => Part { start: 0, count: 0 },
    }
}

// The word itself, as that part of the sheet: it begins in the sheet's own bytes, `start` bytes behind the first, and not where the same
// bytes may stand too.
pub fn faulty_word(sheet: &[u8], places: usize) -> &[u8]
    ensures bytes { result.now ≡ faulty_word places sheet.now }
    ensures place { result.ref_ptr ≡ (sheet.entry.ref_ptr.0, (faulty_part places sheet.now).start + sheet.entry.ref_ptr.1) }
{
    let part = faulty_part(sheet, places);
    &sheet[part.start..part.start + part.count]
}
