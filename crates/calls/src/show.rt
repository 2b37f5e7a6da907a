// Writing to standard output, piece by piece. Where a write fails, the rest of its piece is left out, and the next piece is still tried.

ghost use Rattle.std.specs.Prelude.{◌≡◌, nat_abs};

use model::Law;
use std::io::Write;

// A number, by its sign and its size, which are two pieces.
pub trait Integer: Copy {
    fn is_negative(self) -> bool;

    fn size(self) -> u64;
}

impl Integer for u64 {
    fn is_negative(self) -> bool {
        false
    }

    fn size(self) -> u64
        ensures { result ≡ self }
    {
        self
    }
}

impl Integer for usize {
    fn is_negative(self) -> bool {
        false
    }

    fn size(self) -> u64
        ensures { result ≡ self }
    {
        self as u64
    }
}

impl Integer for i64 {
    fn is_negative(self) -> bool {
        self < 0
    }

    fn size(self) -> u64
        ensures { result ≡ nat_abs self }
    {
        self.unsigned_abs()
    }
}

pub fn text<W: Write>(out: &mut W, bytes: &[u8]) {
    let _ = out.write_all(bytes);
}

pub fn number<W: Write, N: Integer>(out: &mut W, n: N) {
    if n.is_negative() {
        text(out, b"-");
    }
    let size = n.size();
    let _ = write!(out, "{size}");
}

pub fn next<W: Write, N: Integer>(out: &mut W, n: N) {
    text(out, b" ");
    number(out, n);
}

// A byte, by two hexadecimal digits.
pub fn hex<W: Write>(out: &mut W, b: u8) {
    text(out, b" ");
    let _ = write!(out, "{b:02x}");
}

// The number of an answer, 0 for an acceptance, and its place or line.
pub fn answer<W: Write>(out: &mut W, reason: u64, place: usize) {
    number(out, reason);
    next(out, place);
}

// k, D, A_1 to A_4 and B_1 to B_4.
pub fn law<W: Write>(out: &mut W, law: Law) {
    next(out, law.order);
    next(out, law.divisor);
    for term in law.a {
        next(out, term);
    }
    for term in law.b {
        next(out, term);
    }
}

// The places of a row that no longer hold the mark that they held before the call, counted from `first`.
pub fn row_from<W: Write, N: Integer + PartialEq>(
    out: &mut W,
    first: usize,
    values: &[N],
    mark: N,
) {
    text(out, b";");
    for (at, value) in (first..).zip(values) {
        if *value != mark {
            next(out, at);
            text(out, b"=");
            number(out, *value);
        }
    }
}

pub fn row<W: Write, N: Integer + PartialEq>(out: &mut W, values: &[N], mark: N) {
    row_from(out, 0, values, mark);
}
