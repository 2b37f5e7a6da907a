// Limits of the paper that several crates name, each once, and the tests of a limit.

ghost use Rattle.std.specs.Prelude.{◌≡◌, ◌||◌, pos, nat_abs, ◌≤ℤ◌};
ghost use Rattle.model.specs.Limits.{outside, beyond};

// U, which stands for chance 1.
pub const UNIT: i64 = 1_000_000_000;

// The largest order, k.
pub const MOST_ORDER: u64 = 4;

// The most severities that a table may have.
pub const MOST_SEVERITIES: usize = 500;

// The largest last total, X.
pub const MOST_LAST: usize = 500;

// The most totals, 0 to X.
pub const MOST_TOTALS: usize = MOST_LAST + 1;

// Whether `n` is not from `least` to `most`.
pub fn is_outside(least: u64, most: u64, n: u64) -> bool
    ensures { result ≡ outside least most n }
{
    !(least..=most).contains(&n)
}

// Whether `z` lies outside -`limit` to `limit`.
pub fn is_beyond(limit: i64, z: i64) -> bool
    requires { pos 0 ≤ℤ limit }
    ensures { result ≡ beyond (nat_abs limit) z }
{
    !(-limit..=limit).contains(&z)
}

// Whether one of two numbers does.
pub fn is_either_beyond(limit: i64, y: i64, z: i64) -> bool
    requires { pos 0 ≤ℤ limit }
    ensures { result ≡ (beyond (nat_abs limit) y || beyond (nat_abs limit) z) }
{
    is_beyond(limit, y) || is_beyond(limit, z)
}
