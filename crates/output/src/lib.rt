// Text put into a lent row, one piece after the other. A byte that has no place in the row is dropped, and the place for the next one is
// then one past the row's end.

#![tactic(auto)]

ghost use Rattle.std.specs.Prelude.{[], ◌∷◌, ◌≡◌};
ghost use Rattle.text.specs.Bytes.{space};
ghost use Rattle.output.specs.Output.{PutsInto, StartsIn};

use itoa::{Buffer, Integer};

// A row, and the place in it for the next byte: no length, as it is one past the row's end once a byte was dropped.
#[derive(Drop)]
pub struct Output<'a> {
    pub row: &'a mut [u8],
    pub at: usize,
}

impl<'a> Output<'a> {
    pub fn new(row: &'a mut [u8]) -> Output<'a>
        ensures { StartsIn row.entry result }
    {
        Output { row, at: 0 }
    }

    pub fn put_byte(&mut self, b: u8)
        ensures { PutsInto (b ∷ []) self.old self.new }
    {
        if self.at < self.row.len() {
            self.row[self.at] = b;
            self.at += 1;
        } else {
            self.at = self.row.len() + 1;
        }
    }

    pub fn put_bytes(&mut self, bytes: &[u8])
        ensures { PutsInto bytes.now self.old self.new }
    {
        for b in bytes {
            self.put_byte(*b);
        }
    }

    pub fn put_number<I: Integer>(&mut self, n: I)
        ensures { PutsInto (I.text n) self.old self.new }
    {
        self.put_bytes(Buffer::new().format(n).as_bytes());
    }

    // A space and a number: a further word of a line.
    pub fn put_next<I: Integer>(&mut self, n: I)
        ensures { PutsInto (space ∷ I.text n) self.old self.new }
    {
        self.put_byte(b' ');
        self.put_number(n);
    }
}
