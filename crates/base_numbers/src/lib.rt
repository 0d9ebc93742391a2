// Small functions of numbers: one more, and tests of limits that no sum wraps in.
#![tactic(auto)]

ghost use Rattle.std.specs.Prelude.{◌≡◌, ◌&&◌, ◌+◌, leb};
ghost use Rattle.base_numbers.specs.Numbers.{one_more};

// One more, but the very last number stays.
pub fn one_more(x: u64) -> u64
    ensures { result ≡ one_more x }
{
    x.saturating_add(1)
}

// Whether a number is from 1 to the most.
pub fn within(n: u64, most: u64) -> bool
    ensures { result ≡ (leb 1 n && leb n most) }
{
    (1..=most).contains(&n)
}

// Whether two numbers together are at most a limit.
pub fn sum_within(a: u64, b: u64, limit: u64) -> bool
    ensures { result ≡ leb (a + b) limit }
{
    a <= limit && b <= limit - a
}
