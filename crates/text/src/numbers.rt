// The numbers that words are, and that lines are, read from their own bytes.

ghost use Rattle.std.specs.Prelude.{◌≡◌, true, false, ◌≤◌, length, IfSome};
ghost use Rattle.algebra.specs.Table.{every};
ghost use Rattle.text.specs.Numbers.{is_digit, is_numeral, negative_of, number as word_number, found};
ghost use Rattle.text.specs.Lines.{EndOf};
ghost use Rattle.text.specs.Leading.{leading_digits, digits_of, number_line, line_and_rest, line_found, place_found};

// So many digits, and what they stand for: the value alone does not tell how many.
#[derive(Clone, Copy)]
pub struct Digits {
    pub count: usize,
    pub value: u64,
}

// The digits that `s` begins with, 10 at most: a number has no more.
fn leading_digits(s: &[u8]) -> Digits
    ensures { result ≡ digits_of (leading_digits 10 s.now) }
{
    let mut count = 0;
    let mut value = 0;
    for b in s.iter().take(10).take_while(|b| b.is_ascii_digit()) {
        let digit = u64::from(*b - b'0');
        value = value * 10 + digit;
        count += 1;
    }
    Digits { count, value }
}

// Whether digits are a number's: there is one, or there are more and the first is no zero.
fn is_numeral(digits: &[u8]) -> bool
    requires { (length digits.now ≤ 10) × (every is_digit digits.now ≡ true) }
    ensures { result ≡ is_numeral digits.now }
{
    digits.len() == 1 || digits.first().is_some_and(|b| *b != b'0')
}

// A number without a sign.
fn unsigned(word: &[u8]) -> Option<i64>
    ensures { found result ≡ word_number false word.now }
{
    let digits = leading_digits(word);
    if digits.count == word.len() && is_numeral(word) {
        Some(digits.value as i64)
    } else {
        None
    }
}

// The number without a sign that the first line of `s` is, in one pass over the line, and the bytes after the line. These are cut out
// of `s`, since the kit does not tell where in memory the slice stands that `strip_prefix` answers.
pub fn number_line(s: &[u8]) -> Option<(u64, &[u8])>
    ensures found { line_found result ≡ line_and_rest s.now }
    ensures next_line { place_found s.now result ≡ number_line s.now }
    ensures place { IfSome result (λ p. EndOf s.entry p.1) }
{
    let digits = leading_digits(s);
    let (line, rest) = s.split_at(digits.count);
    rest.strip_prefix(b"\n")?;
    is_numeral(line).then_some((digits.value, &s[digits.count + 1..]))
}

// The number that `digits` are after a minus sign: zero has none.
fn negative(digits: &[u8]) -> Option<i64>
    ensures { found result ≡ negative_of digits.now }
{
    let n = unsigned(digits)?;
    if n == 0 { None } else { Some(-n) }
}

// A number that may have a minus sign.
fn signed(word: &[u8]) -> Option<i64>
    ensures { found result ≡ word_number true word.now }
{
    match word.strip_prefix(b"-") {
        Some(digits) => negative(digits),
        None => unsigned(word),
    }
}

// The number that a word is; `signs` says whether it may have a minus sign, as in the definition `number` and in `NumberExactly`.
pub fn number(word: &[u8], signs: bool) -> Option<i64>
    ensures { found result ≡ word_number signs word.now }
{
    if signs { signed(word) } else { unsigned(word) }
}
