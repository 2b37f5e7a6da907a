// One line: a keyword, and one number or two.

ghost use Rattle.std.specs.Prelude.{◌≡◌, false, List, ℕ, IfOk, IfSome};
ghost use Rattle.lines.specs.Keywords.{W};
ghost use Rattle.lines.specs.Line.{line, faulty};
ghost use Rattle.lines.specs.Parts.{after_keyword, head_of, fields, last_of, weight_line, one_of, two_of};
ghost use Rattle.lines.specs.Reason.{number_of};
ghost use Rattle.std.proofs.Math.Option.{none};
ghost use Rattle.text.specs.Lines.{EndOf};
ghost use Rattle.text.specs.Leading.{line_found};

use super::Reason;
use super::keywords::W;
use text::lines::split_once;
use text::numbers::{number, number_line};

// The numbers of a line, after the space that ends its keyword, and the bytes after the line.
fn read_keyword<'s>(rest: &'s [u8], keyword: &[u8]) -> Result<(&'s [u8], &'s [u8]), Reason>
    ensures parsed { head_of result ≡ after_keyword keyword.now rest.now }
    ensures place { IfOk result (λ p. EndOf rest.entry p.1) }
{
    let (line, next) = split_once(rest, b'\n').ok_or(Reason::Missing)?;
    let (word, part) = split_once(line, b' ').ok_or(Reason::Form)?;
    if word == keyword {
        Ok((part, next))
    } else {
        Err(Reason::Form)
    }
}

// `part` is the rest of a line, which is to be one number. That is tried first, as on every good line; where it fails, a space in the part
// says that there are words too many.
fn last_number(part: &[u8], signs: bool) -> Result<i64, Reason>
    ensures { (rest : List ℕ) → last_of result rest ≡ fields signs 1 part.now rest }
{
    match number(part, signs) {
        Some(z) => Ok(z),
        None if part.contains(&b' ') => Err(Reason::Form),
        None => Err(Reason::Word),
    }
}

// A line `KEYWORD n`: the number, which has no sign, and the bytes after the line.
pub fn read_one<'s>(rest: &'s [u8], keyword: &[u8]) -> Result<(u64, &'s [u8]), Reason>
    ensures parsed { one_of result ≡ line false keyword.now 1 rest.now }
    ensures place { IfOk result (λ p. EndOf rest.entry p.1) }
{
    let (part, next) = read_keyword(rest, keyword)?;
    let z = last_number(part, false)?;
    Ok((z.unsigned_abs(), next))
}

// The number of a good line `W n`, read in one pass over the line, and the bytes after the line.
fn good_weight(rest: &[u8]) -> Option<(u64, &[u8])>
    ensures found { line_found result ≡ weight_line rest.now }
    ensures place { IfSome result (λ p. EndOf rest.entry p.1) }
{
    let [b'W', b' ', numbers @ ..] = rest else {
        return None;
    };
    number_line(numbers)
}

// Why any other line is refused where such a line is due.
fn weight_refusal(rest: &[u8]) -> Reason
    requires { weight_line rest.now ≡ none }
    ensures { faulty (number_of result) ≡ line false W 1 rest.now }
{
    match read_keyword(rest, &W) {
        Err(reason) => reason,
        Ok((part, _)) if part.contains(&b' ') => Reason::Form,
        Ok(_) => Reason::Word,
    }
}

// A line `W n`, of which a sheet may have 500.
pub fn read_weight(rest: &[u8]) -> Result<(u64, &[u8]), Reason>
    ensures parsed { one_of result ≡ line false W 1 rest.now }
    ensures place { IfOk result (λ p. EndOf rest.entry p.1) }
{
    match good_weight(rest) {
        Some(read) => Ok(read),
        None => Err(weight_refusal(rest)),
    }
}

// A line `KEYWORD n n`: its numbers, and the bytes after the line; `signs` says whether the numbers may have a sign. One function for any
// count of numbers would be no plainer: here the last word goes first, and only `read_one` turns its number into one without a sign.
pub fn read_two<'s>(
    rest: &'s [u8],
    keyword: &[u8],
    signs: bool,
) -> Result<(i64, i64, &'s [u8]), Reason>
    ensures parsed { two_of result ≡ line signs keyword.now 2 rest.now }
    ensures place { IfOk result (λ p. EndOf rest.entry p.2) }
{
    let (part, next) = read_keyword(rest, keyword)?;
    let (first, last) = split_once(part, b' ').ok_or(Reason::Form)?;
    // the last word first: a wrong count of words (23) goes before a first word that is no number (24)
    let z = last_number(last, signs)?;
    let y = number(first, signs).ok_or(Reason::Word)?;
    Ok((y, z, next))
}
