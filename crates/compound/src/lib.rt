// The curve call: its checks, its answer, and what the lent rows hold on return.

#![tactic(auto)]

mod check;

ghost use Rattle.std.specs.Prelude.{◌≡◌, ◌+◌, ◌≤◌, pos, length, replicate};
ghost use Rattle.algebra.specs.Slice.{written};
ghost use Rattle.model.specs.Answer.{first_refusal};
ghost use Rattle.rows.specs.Lent.{Room, SameRows};
ghost use Rattle.compound.specs.Lent.{lent_of, lent_in, SameLent};
ghost use Rattle.compound.specs.Call.{number_of, reason_of, paper, faults, ran, curve_answer, curve_lent};

use model::Job;
use model::refusal::{Numbered, Refusal};
use rows::fill::Fault;
use rows::layout::{Rows, WORK_COLUMNS};
use rows::total::Recursion;

// Why the curve call refuses, by the paper's numbers, in the order in which they are looked for.
#[derive(Clone, Copy, Debug, PartialEq, Eq)]
pub enum Reason {
    Order = 1,
    Divisor = 2,
    Term = 3,
    Start = 4,
    Severities = 5,
    Weights = 6,
    ZeroOrder = 11,
    ZeroDivisor = 12,
    OnlyZeros = 13,
    Last = 7,
    Places = 8,
    Range = 9,
    Bound = 10,
}

impl Numbered for Reason {
    ghost number_of = { number_of };

    fn number(self) -> u64 {
        self as u64
    }
}

// The rows lent to the curve call: row 0's lows, highs, bounds and marks, and the work row, for the further rows of the recursion. They are
// no `Rows` yet, whose number of places is known once the checks have passed.
#[derive(Drop)]
pub struct LentRows<'a> {
    pub low: &'a mut [i64],
    pub high: &'a mut [i64],
    pub bound: &'a mut [i64],
    pub mark: &'a mut [i64],
    pub work: &'a mut [i64],
}

// The reason of a fault at which the rows stop.
impl From<Fault> for Reason {
    ghost from_gives = { λ fault reason. reason ≡ reason_of fault };

    fn from(fault: Fault) -> Reason {
        match fault {
            Fault::Range => Reason::Range,
            Fault::Bound => Reason::Bound,
        }
    }
}

// Zeros in the first `n` places.
fn clear(row: &mut [i64], n: usize)
    requires { n ≤ length row.old }
    ensures { row.new ≡ written (replicate n (pos 0)) row.old }
{
    row[..n].fill(0);
}

// The rows filled with the curve, and cleared at a total that has a fault; the work row is cleared in any case.
fn run(recursion: &Recursion<'_>, rows: &mut Rows<'_>) -> Result<(), Refusal<Reason>>
    requires { Room rows.old × (rows.old.places ≡ recursion.now.job.last + 1) }
    ensures answer { paper result ≡ first_refusal (faults recursion.now.job recursion.now.weights.now) }
    ensures rows { lent_in rows.new ≡ ran recursion.now.job recursion.now.weights.now (lent_in rows.old) }
    ensures same { SameRows rows.new rows.old }
{
    let filled = recursion.fill(rows);
    let places = rows.places;
    clear(rows.work, WORK_COLUMNS * places);
    if let Err(stop) = filled {
        clear(rows.low, places);
        clear(rows.high, places);
        clear(rows.bound, places);
        clear(rows.mark, places);
        return Err(Refusal {
            reason: stop.fault.into(),
            place: stop.total,
        });
    }
    Ok(())
}

// The curve of a job from total 0 to its last, in the lent rows.
pub fn curve(job: Job, weights: &[u64], lent: &mut LentRows<'_>) -> Result<(), Refusal<Reason>>
    ensures answer { paper result ≡ curve_answer job weights.now (lent_of lent.old) }
    ensures rows { lent_of lent.new ≡ curve_lent job weights.now (lent_of lent.old) }
    ensures same { SameLent lent.new lent.old }
{
    let recursion = check::check(job, weights, lent)?;
    let mut rows = Rows {
        low: lent.low,
        high: lent.high,
        bound: lent.bound,
        mark: lent.mark,
        work: lent.work,
        places: job.last as usize + 1,
    };
    run(&recursion, &mut rows)
}
