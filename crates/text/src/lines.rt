// Lines, and the parts of a line.

ghost use Rattle.std.specs.Prelude.{◌≡◌, ◌≤◌, length, IfSome};
ghost use Rattle.text.specs.Lines.{before, after, around, around_found, EndOf, line_start};

// How many bytes of `s` stand before its first `b`: all of them where it has none. So the definition `before` has it, and this is no
// `Option`.
pub fn until(s: &[u8], b: u8) -> usize
    ensures found { result ≡ length (before b s.now) }
    ensures within { result ≤ length s.now }
{
    s.iter().position(|x| *x == b).unwrap_or(s.len())
}

// What stands before and after the first `b` of `s`, where it has one.
pub fn split_once(s: &[u8], b: u8) -> Option<(&[u8], &[u8])>
    ensures parts { around_found result ≡ around b s.now }
    ensures place { IfSome result (λ p. EndOf s.entry p.1) }
{
    let at = until(s, b);
    let [_, after @ ..] = &s[at..] else {
        return None;
    };
    Some((&s[..at], after))
}

// The bytes after the first `b` of `s`: none where it has none.
pub fn after(s: &[u8], b: u8) -> &[u8]
    ensures rest { result.now ≡ after b s.now }
    ensures within { length result.now ≤ length s.now }
    ensures place { EndOf s.entry result }
{
    &s[s.len().min(until(s, b) + 1)..]
}

// Where line `n`, from 1, begins. The loop counts lines that are gone past, and reads nothing by the count.
pub fn line_start(text: &[u8], n: usize) -> usize
    ensures { result ≡ line_start n text.now }
{
    let mut rest = text;
    for _ in 1..n {
        rest = after(rest, b'\n');
    }
    text.len() - rest.len()
}
