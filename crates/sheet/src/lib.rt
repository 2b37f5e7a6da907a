// The sheet reader: the numbers of a job and the weights of its table, from a sheet's bytes.

#![tactic(auto)]

mod due;
pub mod reader;

ghost use Rattle.std.specs.Prelude.{◌≡◌, length};
ghost use Rattle.grammar.specs.Reading.{reading};
ghost use Rattle.sheet.specs.Call.{paper, told, row_on_return};

use lines::Reason;
use model::limits::MOST_SEVERITIES;
use model::refusal::Refusal;
use model::{Job, Law, Start};
use reader::read_text;

// The most bytes that a sheet may have.
pub const MOST_BYTES: usize = 16_384;

// What a sheet says: the job and the count of its weights, which stay in the caller's row, as there is no heap.
#[derive(Clone, Copy, Debug, Default, PartialEq, Eq)]
pub struct Sheet {
    pub job: Job,
    pub count: usize,
}

// Reads a sheet. Its weights come into the first places of the row once the whole sheet is known to be good.
pub fn read_sheet(sheet: &[u8], row: &mut [u64]) -> Result<Sheet, Refusal<Reason>>
    ensures answer { paper result row.new ≡ told (reading (length row.old) sheet.now) }
    ensures row { row.new ≡ row_on_return (reading (length row.old) sheet.now) row.old }
{
    let mut weights = [0u64; MOST_SEVERITIES];
    let read = read_text(sheet, row.len(), &mut weights)?;
    row[..read.count].copy_from_slice(&weights[..read.count]);
    Ok(read)
}
