// Division of signed sums, rounded outward: down for a low, up for a high.

#![tactic(auto)]

ghost use Rattle.std.specs.Prelude.{◌≡◌, ◌&&◌, ◌≤◌, ◌<◌, ◌^◌};
ghost use Rattle.outward.specs.Division.{floor_div, ceil_div, divides};

// The quotients of an interval's ends.
#[derive(Clone, Copy, Debug, PartialEq, Eq)]
pub struct Interval {
    pub low: i64,
    pub high: i64,
}

// An interval that was divided; `exact` says that neither division left a remainder. The ends are good either way, so this is no `Option`.
#[derive(Clone, Copy, Debug, PartialEq, Eq)]
pub struct Quotient {
    pub ends: Interval,
    pub exact: bool,
}

// Each function asks for the range of `d` in its own line: a type for it would have to be made, and this proved, at each call of `divide`.

// `n / d` rounded down, towards minus infinity. `/` rounds towards zero, and what it leaves has the sign of `n`. `div_euclid` was tried:
// beside the `%` of `is_multiple` it divides once more, so that `divide` has three divisions and not two.
fn floor_div(n: i64, d: u64) -> i64
    requires { (1 ≤ d) × (d < 2 ^ 63) }
    ensures { result ≡ floor_div n d }
{
    let divisor = d as i64;
    n / divisor - i64::from(n % divisor < 0)
}

// `n / d` rounded up, towards plus infinity: the other direction, by the other sign of what is left. One function for both would take the
// sign, and be no plainer.
pub fn ceil_div(n: i64, d: u64) -> i64
    requires { (1 ≤ d) × (d < 2 ^ 63) }
    ensures { result ≡ ceil_div n d }
{
    let divisor = d as i64;
    n / divisor + i64::from(0 < n % divisor)
}

// Whether `n / d` leaves no remainder.
fn is_multiple(n: i64, d: u64) -> bool
    requires { (1 ≤ d) × (d < 2 ^ 63) }
    ensures { result ≡ divides d n }
{
    n % (d as i64) == 0
}

// The interval from `low` to `high` divided by `d`, each end rounded outward. The processor divides each end once, as quotient and
// remainder come together; and `&` needs no branch.
pub fn divide(low: i64, high: i64, d: u64) -> Quotient
    requires { (1 ≤ d) × (d < 2 ^ 63) }
    ensures ends { (result.ends.low ≡ floor_div low d) × (result.ends.high ≡ ceil_div high d) }
    ensures exact { result.exact ≡ (divides d low && divides d high) }
{
    let ends = Interval {
        low: floor_div(low, d),
        high: ceil_div(high, d),
    };
    Quotient {
        ends,
        exact: is_multiple(low, d) & is_multiple(high, d),
    }
}
