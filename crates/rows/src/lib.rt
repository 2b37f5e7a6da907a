// The rows of the curve by the outward rule: every chance as a low and a high with a bound on their gap. The functions ask for a job within
// the limits and for rows that are long enough; the curve call looks after both.

#![tactic(auto)]

mod exact; // exact.rt: which entries of one total are exact
pub mod fill; // fill.rt: the rows, total by total
pub mod layout; // layout.rt: where the rows lie
pub mod total; // total.rt: what the totals are computed from, and the entries of one total
