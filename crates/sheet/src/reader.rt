// The sheet, line by line. The weights are written as they are read, before the last line is known to be good, so the row may hold anything
// after a refusal, and behind the weights after an acceptance.

ghost use Rattle.std.specs.Prelude.{◌≡◌, [], ℕ, ◌≤◌, length, IfOk};
ghost use Rattle.model.specs.Limits.{most_severities};
ghost use Rattle.model.specs.declared.Job.{Job};
ghost use Rattle.grammar.specs.Reading.{reads, sheet_of, reading};
ghost use Rattle.grammar.specs.Reading.{weight_lines, severity_line, start_line, law_line};
ghost use Rattle.sheet.specs.Call.{paper, told};
ghost use Rattle.sheet.specs.Due.{goes_on};

use super::{MOST_BYTES, Sheet};
use crate::due::Due;
use lines::Reason;
use lines::keywords::{LAST, LAW, SEVERITY, START, ZERO};
use model::limits::{MOST_ORDER, MOST_SEVERITIES, is_outside};
use model::refusal::Refusal;
use model::{Job, Law, Start};

// The line `LAW k D`, and the k lines `TERM A B`.
#[tactic(auto, using(text::proofs::Scan::one_fewer), unfolding(grammar::specs::Reading::law_line, grammar::specs::Reading::term_lines))]
fn read_law(due: &mut Due<'_>) -> Result<Law, Refusal<Reason>>
    requires { due.old.line ≡ 1 }
    ensures { (places : ℕ) → law_line places due.old.rest.now
        ≡ goes_on result (λ law. start_line places law due.new.line due.new.rest.now) }
{
    let (order, divisor) = due.two(&LAW)?;
    if is_outside(1, MOST_ORDER, order) {
        return Err(Refusal {
            reason: Reason::Limit,
            place: 1,
        });
    }
    let mut a = [0i64; MOST_ORDER as usize];
    let mut b = [0i64; MOST_ORDER as usize];
    // by an index: over a zip of two `iter_mut`s no invariant says what the arrays hold so far (tried)
    for i in 0..order as usize {
        (a[i], b[i]) = due.term()?;
    }
    Ok(Law {
        order,
        divisor,
        a,
        b,
    })
}

// The line `SEVERITY m`. `places`, here and below, and not the row: the definition `reading` judges a row by its places alone.
#[tactic(auto, unfolding(grammar::specs::Reading::severity_line))]
fn read_count(due: &mut Due<'_>, places: usize) -> Result<usize, Refusal<Reason>>
    ensures room { IfOk result (λ count. (count ≤ most_severities) × (count ≤ places)) }
    ensures line { (job : Job) → severity_line places job due.old.line due.old.rest.now
        ≡ goes_on result (λ count. weight_lines job [] count due.new.line due.new.rest.now) }
{
    let line = due.line;
    let count = due.one(&SEVERITY)?;
    if is_outside(1, MOST_SEVERITIES as u64, count) {
        return Err(Refusal {
            reason: Reason::Limit,
            place: line,
        });
    }
    if places < count as usize {
        return Err(Refusal {
            reason: Reason::Places,
            place: line,
        });
    }
    Ok(count as usize)
}

// The lines `W w`, one for each place of the row, with nothing after them. These are the last lines, so what is due is handed over: as a
// function of its own the loop keeps it in registers (29,957 instructions on the benchmark's sheet, and 34,475 before that and
// `weight_refusal`; the bar is 32,170).
#[tactic(auto, using(text::proofs::Scan::one_fewer), unfolding(grammar::specs::Reading::weight_lines))]
#[inline(never)]
fn read_weights(mut due: Due<'_>, row: &mut [u64]) -> Result<(), Refusal<Reason>>
    ensures { (job : Job) → weight_lines job [] (length row.old) due.entry.line due.entry.rest.now
        ≡ goes_on result (λ _. reads (sheet_of job row.new)) }
{
    for weight in row.iter_mut() {
        *weight = due.weight()?;
    }
    if !due.rest.is_empty() {
        return Err(Refusal {
            reason: Reason::Excess,
            place: due.line,
        });
    }
    Ok(())
}

// The lines from `LAW k D` to `ZERO w`.
#[tactic(auto, unfolding(grammar::specs::Reading::start_line, grammar::specs::Reading::last_line, grammar::specs::Reading::zero_line))]
fn read_job(due: &mut Due<'_>) -> Result<Job, Refusal<Reason>>
    requires { due.old.line ≡ 1 }
    ensures { (places : ℕ) → law_line places due.old.rest.now
        ≡ goes_on result (λ job. severity_line places job due.new.line due.new.rest.now) }
{
    let law = read_law(due)?;
    let (low, high) = due.two(&START)?;
    let last = due.one(&LAST)?;
    let zero = due.one(&ZERO)?;
    Ok(Job {
        law,
        start: Start { low, high },
        last,
        zero,
    })
}

// What a sheet says to a row of `places` places; what `weights` holds behind the weights, and after a refusal, is not said.
#[tactic(auto, unfolding(grammar::specs::Reading::reading))]
pub fn read_text(sheet: &[u8], places: usize, weights: &mut [u64]) -> Result<Sheet, Refusal<Reason>>
    requires { most_severities ≤ length weights.old }
    ensures answer { paper result weights.new ≡ told (reading places sheet.now) }
    ensures room { IfOk result (λ read. (read.count ≤ most_severities) × (read.count ≤ places)) }
{
    if is_outside(1, MOST_BYTES as u64, sheet.len() as u64) {
        return Err(Reason::Size.into());
    }
    let mut due = Due {
        rest: sheet,
        line: 1,
    };
    let job = read_job(&mut due)?;
    let count = read_count(&mut due, places)?;
    read_weights(due, &mut weights[..count])?;
    Ok(Sheet { job, count })
}
