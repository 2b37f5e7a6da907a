// What is left of a sheet, line by line.

ghost use Rattle.std.specs.Prelude.{◌+◌, ◌≤◌, length};
ghost use Rattle.grammar.specs.Reading.{most_bytes};

use lines::Reason;
use lines::keywords::TERM;
use lines::line::{read_one, read_two, read_weight};
use model::refusal::Refusal;

// The bytes from the line due on, and the number of that line. Each line before it has a byte at least, so there is a largest number.
#[derive(Drop)]
pub struct Due<'s> {
    pub rest: &'s [u8],
    pub line: usize,
    ghost few_lines: { line + length rest.now ≤ most_bytes + 1 },
}

// A method for each kind of line. What they share are `placed` and `go_on`; one that is handed the reader of a line would have to say in
// its clause what any reader does, and be no plainer.
impl<'s> Due<'s> {
    ghost use Rattle.std.specs.Prelude.{◌≡◌, ◌<◌, true, false, List, [], ◌∷◌, ℕ, ℤ, pos};
    ghost use Rattle.lines.specs.Line.{line};
    ghost use Rattle.lines.specs.Keywords.{TERM, W};
    ghost use Rattle.sheet.specs.Due.{gives, counted, placed};

    // Puts the number of the line due into its refusal.
    fn placed<T: Drop>(&self, read: Result<T, Reason>) -> Result<T, Refusal<Reason>>
        ensures { result ≡ placed self.now.line read }
    {
        let place = self.line;
        read.map_err(|reason| Refusal { reason, place })
    }

    fn go_on(&mut self, rest: &'s [u8])
        requires { length rest.now < length self.old.rest.now }
        ensures rest { self.new.rest.now ≡ rest.now }
        ensures line { self.new.line ≡ self.old.line + 1 }
    {
        self.rest = rest;
        self.line += 1;
    }

    // A line `KEYWORD n`.
    pub fn one(&mut self, keyword: &[u8]) -> Result<u64, Refusal<Reason>>
        ensures read { line false keyword.now 1 self.old.rest.now ≡ gives (λ n. pos n ∷ []) result self.new.rest.now }
        ensures line { counted result self.old.line self.new.line }
    {
        let (n, rest) = self.placed(read_one(self.rest, keyword))?;
        self.go_on(rest);
        Ok(n)
    }

    // A line `W n`.
    pub fn weight(&mut self) -> Result<u64, Refusal<Reason>>
        ensures read { line false W 1 self.old.rest.now ≡ gives (λ n. pos n ∷ []) result self.new.rest.now }
        ensures line { counted result self.old.line self.new.line }
    {
        let (w, rest) = self.placed(read_weight(self.rest))?;
        self.go_on(rest);
        Ok(w)
    }

    // A line `KEYWORD n n`.
    pub fn two(&mut self, keyword: &[u8]) -> Result<(u64, u64), Refusal<Reason>>
        ensures read { line false keyword.now 2 self.old.rest.now ≡ gives (λ n. pos n.0 ∷ pos n.1 ∷ []) result self.new.rest.now }
        ensures line { counted result self.old.line self.new.line }
    {
        let (y, z, rest) = self.placed(read_two(self.rest, keyword, false))?;
        self.go_on(rest);
        Ok((y.unsigned_abs(), z.unsigned_abs()))
    }

    // A line `TERM A B`, whose numbers may have a sign.
    pub fn term(&mut self) -> Result<(i64, i64), Refusal<Reason>>
        ensures read { line true TERM 2 self.old.rest.now ≡ gives (λ z. z.0 ∷ z.1 ∷ []) result self.new.rest.now }
        ensures line { counted result self.old.line self.new.line }
    {
        let (a, b, rest) = self.placed(read_two(self.rest, &TERM, true))?;
        self.go_on(rest);
        Ok((a, b))
    }
}
