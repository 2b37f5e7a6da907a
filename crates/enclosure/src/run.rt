// Runs: severities next to each other whose factors are all zero or more, or all zero or less. A line changes sign once at most, so a term
// has one run or two.

ghost use Rattle.std.specs.Prelude.{◌≡◌, false, ◌≤◌, pos, ◌≤ℤ◌};
ghost use Rattle.model.specs.Limits.{most_last};
ghost use Rattle.enclosure.specs.Term.{line_at};
ghost use Rattle.enclosure.specs.Run.{FactorSmall, FirstRun};

use super::term::Factor;

// The severities from `from` + 1 to `to`; `negative` says that their factors are zero or less. A run has one sign or the other, so this is
// no `Option`.
#[derive(Clone, Copy)]
pub struct Run {
    pub from: usize,
    pub to: usize,
    pub negative: bool,
}

impl Run {
    // The first run of the severities 1 to `last`.
    pub fn first(factor: Factor, last: usize) -> Run
        requires { FactorSmall factor × (last ≤ most_last) }
        ensures { FirstRun factor last result }
    {
        if factor.line_at(1) < 0 {
            Run {
                from: 0,
                to: end(-factor, last),
                negative: true,
            }
        } else {
            Run {
                from: 0,
                to: end(factor, last),
                negative: false,
            }
        }
    }
}

// Where a line that is zero or more at severity 1 stays so: up to this severity, `last` at most.
fn end(factor: Factor, last: usize) -> usize
    requires { FactorSmall factor × (last ≤ most_last) × (pos 0 ≤ℤ line_at factor 1) }
    ensures { FirstRun factor last (record { from = 0; to = result; negative = false }) }
{
    if 0 <= factor.slope {
        return last;
    }
    let further = factor.line_at(1).unsigned_abs() / factor.slope.unsigned_abs();
    last.min(1 + further as usize)
}
