// The lines of the program's text.

#![tactic(auto)]

ghost use Rattle.std.specs.Prelude.{◌≡◌, ◌<◌};
ghost use Rattle.model.specs.Answer.{refused};
ghost use Rattle.output.specs.Output.{PutsInto};
ghost use Rattle.table.specs.Lines.{LongEnough, exact_letter, refusal_line};

use model::refusal::{Numbered, Refusal};
use output::Output;

// Y for an exact entry, by its mark, and N otherwise.
fn letter(mark: i64) -> u8
    ensures { result ≡ exact_letter mark }
{
    if 0 < mark { b'Y' } else { b'N' }
}

// The first totals of the four rows of a curve, which may be longer.
#[derive(Clone, Copy)]
pub struct Table<'a> {
    pub totals: usize,
    pub low: &'a [i64],
    pub high: &'a [i64],
    pub bound: &'a [i64],
    pub mark: &'a [i64],
    ghost long_enough: { LongEnough totals low.now high.now bound.now mark.now },
}

impl Table<'_> {
    ghost use Rattle.table.specs.Rows.{line_at, text_of};

    fn put_total(&self, out: &mut Output, total: usize)
        requires { total < self.now.totals }
        ensures { PutsInto (line_at self.now total) out.old out.new }
    {
        out.put_number(total);
        out.put_next(self.low[total]);
        out.put_next(self.high[total]);
        out.put_next(self.bound[total]);
        out.put_byte(b' ');
        out.put_byte(letter(self.mark[total]));
        out.put_byte(b'\n');
    }

    // The heading, and a line for each total. Four rows zipped would be a tuple in a tuple in a tuple, and no plainer.
    pub fn put(&self, out: &mut Output)
        ensures { PutsInto (text_of self.now) out.old out.new }
    {
        out.put_bytes(b"TOTAL LOW HIGH BOUND EXACT\n");
        for total in 0..self.totals {
            self.put_total(out, total);
        }
    }
}

pub fn put_refusal<R: Numbered>(out: &mut Output, refusal: Refusal<R>)
    ensures { PutsInto (refusal_line (refused (R.number_of refusal.reason) refusal.place))
        out.old out.new }
{
    out.put_bytes(b"REFUSED ");
    out.put_number(refusal.number());
    out.put_next(refusal.place);
    out.put_byte(b'\n');
}
