// Refusals 1 to 8, with 11 to 13 after 6, in the paper's order: what is known before anything is written.

#![tactic(auto, unfolding(model::specs::Answer::first_refusal))]

ghost use Rattle.std.specs.Prelude.{◌≡◌, ◌++◌, ◌+◌, ◌≤◌, ◌<◌, min, pos, nat_abs, IfOk};
ghost use Rattle.std.specs.List.{find, range_with_len};
ghost use Rattle.model.specs.Weights.{total_weight, thinned_divisor};
ghost use Rattle.model.specs.Answer.{first_refusal};
ghost use Rattle.model.specs.Limits.{most_order, most_totals};
ghost use Rattle.rows.specs.Limits.{LawLimits};
ghost use Rattle.rows.specs.Progress.{divisors_of};
ghost use Rattle.compound.specs.Lent.{lent_of};
ghost use Rattle.compound.specs.Call.{term_limit, wrong_term, too_short, paper};
ghost use Rattle.compound.specs.Call.{law_checks, start_checks, table_checks, zero_checks, room_checks, checks};

use super::{LentRows, Reason};
use model::limits::{MOST_LAST, MOST_ORDER, MOST_SEVERITIES, UNIT, is_either_beyond, is_outside};
use model::refusal::Refusal;
use model::{Job, Law, Start};
use rows::layout::WORK_COLUMNS;
use rows::total::{Divisors, Recursion};

// The largest sum of weights that is told apart: one more than a table may have.
const WEIGHT_CAP: u64 = 1001;

// The size that the numbers of term `i` + 1 may have: a term past the order is zero.
fn term_limit(order: u64, i: usize) -> i64
    ensures { result ≡ pos (term_limit order i) }
{
    if (i as u64) < order { 1000 } else { 0 }
}

// Whether term `i` + 1 is wrong.
fn is_wrong_term(law: Law, i: usize) -> bool
    requires { i < most_order }
    ensures { result ≡ wrong_term law i }
{
    is_either_beyond(term_limit(law.order, i), law.a[i], law.b[i])
}

// The first term that is wrong, from 0.
fn first_wrong_term(law: Law) -> Option<usize>
    ensures { result ≡ find (wrong_term law) (range_with_len 0 4) }
{
    (0..MOST_ORDER as usize).find(|&i| is_wrong_term(law, i))
}

// Two weights together, as far as the cap: the sum does not overflow whatever they are.
fn capped_sum(total: u64, weight: u64) -> u64
    ensures { result ≡ min (total + weight) 1001 }
{
    total.saturating_add(weight).min(WEIGHT_CAP)
}

// The sum of a row of weights, likewise: the weights behind the one at which it reaches the cap are not read.
fn total_weight(weights: &[u64]) -> u64
    ensures { result ≡ min (total_weight weights.now) 1001 }
{
    let mut total = 0;
    for &weight in weights {
        total = capped_sum(total, weight);
        if total == WEIGHT_CAP {
            return WEIGHT_CAP;
        }
    }
    total
}

// D W - A w(0), and 0 where that is below; `total` is W.
fn thinned_divisor(divisor: u64, a: i64, zero: u64, total: u64) -> u64
    requires { (divisor ≤ 1000) × (nat_abs a ≤ 1000) × (zero ≤ 1000) × (total ≤ 1000) }
    ensures { result ≡ thinned_divisor divisor a zero total }
{
    (divisor * total).saturating_add_signed(-(a * zero as i64))
}

// Whether a row has fewer places than the call asks for: rows may be longer.
fn is_too_short(places: usize, lent: &LentRows<'_>) -> bool
    requires { places ≤ most_totals }
    ensures { result ≡ too_short places (lent_of lent.now) }
{
    lent.low.len() < places
        || lent.high.len() < places
        || lent.bound.len() < places
        || lent.mark.len() < places
        || lent.work.len() < WORK_COLUMNS * places
}

// 1 to 3, of the law.
fn check_law(law: Law) -> Result<(), Refusal<Reason>>
    ensures { paper result ≡ first_refusal (law_checks law) }
{
    if is_outside(1, MOST_ORDER, law.order) {
        return Err(Reason::Order.into());
    }
    if is_outside(1, 1000, law.divisor) {
        return Err(Reason::Divisor.into());
    }
    if let Some(term) = first_wrong_term(law) {
        return Err(Refusal {
            reason: Reason::Term,
            place: term + 1,
        });
    }
    Ok(())
}

// 4, of the start.
fn check_start(start: Start) -> Result<(), Refusal<Reason>>
    ensures { paper result ≡ first_refusal (start_checks start) }
{
    if start.high < start.low || is_outside(1, UNIT as u64, start.high) {
        return Err(Reason::Start.into());
    }
    Ok(())
}

// 5 and 6, and 11 to 13, of the table.
fn check_table(job: Job, weights: &[u64]) -> Result<Divisors, Refusal<Reason>>
    requires { LawLimits job.law }
    ensures answer { paper result ≡ first_refusal (table_checks job weights.now ++ zero_checks job weights.now) }
    ensures divisors { IfOk result (λ divisors. divisors ≡ divisors_of job weights.now) }
{
    if is_outside(1, MOST_SEVERITIES as u64, weights.len() as u64) {
        return Err(Reason::Severities.into());
    }
    let row = total_weight(weights);
    let total = capped_sum(job.zero, row);
    if is_outside(1, 1000, total) {
        return Err(Reason::Weights.into());
    }
    if 0 < job.zero && 1 < job.law.order {
        return Err(Reason::ZeroOrder.into());
    }
    let first = thinned_divisor(job.law.divisor, job.law.a[0], job.zero, total);
    if first == 0 {
        return Err(Reason::ZeroDivisor.into());
    }
    if row == 0 {
        return Err(Reason::OnlyZeros.into());
    }
    Ok(Divisors {
        first,
        further: total,
    })
}

// 7 and 8, of the last total and the rows.
fn check_room(job: Job, lent: &LentRows<'_>) -> Result<(), Refusal<Reason>>
    ensures { paper result ≡ first_refusal (room_checks job (lent_of lent.now)) }
{
    if (MOST_LAST as u64) < job.last {
        return Err(Reason::Last.into());
    }
    if is_too_short(job.last as usize + 1, lent) {
        return Err(Reason::Places.into());
    }
    Ok(())
}

// The first condition of the list that holds, and else the recursion of the job.
pub fn check<'w>(
    job: Job,
    weights: &'w [u64],
    lent: &LentRows<'_>,
) -> Result<Recursion<'w>, Refusal<Reason>>
    ensures answer { paper result ≡ first_refusal (checks job weights.now (lent_of lent.now)) }
    ensures recursion { IfOk result (λ r. (r.job ≡ job) × (r.weights.now ≡ weights.now)) }
{
    check_law(job.law)?;
    check_start(job.start)?;
    let divisors = check_table(job, weights)?;
    check_room(job, lent)?;
    Ok(Recursion {
        job,
        weights,
        divisors,
    })
}
