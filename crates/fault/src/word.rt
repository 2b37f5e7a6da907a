// The first word of a line that is no number there.

ghost use Rattle.std.specs.Prelude.{◌≡◌, ◌+◌, length};
ghost use Rattle.lines.specs.Line.{keyword_of, number_words, signs_on};
ghost use Rattle.fault.specs.Call.{first_part, part_at};

use super::Part;
use lines::keywords::TERM;
use text::lines::{line_start, until};
use text::numbers::number;

// Whether the numbers of a line may have a sign.
fn has_signs(line: &[u8]) -> bool
    ensures { result ≡ signs_on line.now }
{
    line[..until(line, b' ')] == TERM[..]
}

// The first word after the keyword that is no number, as a part of the line; an empty part where each is one, and no `Option`: so the
// definition has it (`faulty_part`), and so C is told.
fn first_no_number(line: &[u8], signs: bool) -> Part
    ensures { result ≡ first_part signs (length (keyword_of line.now) + 1) (number_words line.now) }
{
    let mut start = until(line, b' ') + 1;
    for word in line.split(|b| *b == b' ').skip(1) {
        if number(word, signs).is_none() {
            return Part {
                start,
                count: word.len(),
            };
        }
        start += word.len() + 1;
    }
    Part { start: 0, count: 0 }
}

// The first word on line `n` that is no number there, as a part of the sheet; an empty part at the line's front where each is one.
pub fn first_faulty(sheet: &[u8], n: usize) -> Part
    ensures { result ≡ part_at n sheet.now }
{
    let start = line_start(sheet, n);
    let rest = &sheet[start..];
    let line = &rest[..until(rest, b'\n')];
    let word = first_no_number(line, has_signs(line));
    Part {
        start: start + word.start,
        count: word.count,
    }
}
