// The arithmetic that the figures stand on: division rounded down, and differences and sums that may fall below zero.
#![tactic(auto)]

ghost use Rattle.std.specs.Prelude.{◌≡◌, ◌+◌, ◌<◌, ◌^◌, pos, nat_abs, ◌+ℤ◌, ◌-ℤ◌};
ghost use Rattle.cut_division.specs.Cut.{quotient_of, ◌cut_by◌, Divides, undivided};

// What a cut division hands back: the quotient, rounded down, what was cut off, and the divisor.
#[derive(Clone, Copy, Debug, PartialEq, Eq)]
pub struct Quotient {
    pub whole: u64,
    pub cut_off: u64,
    pub divisor: u64,
}

// The division that every figure is cut by. `quotient` says a part of `all` again, in the form that a caller's
// arithmetic reads.
pub fn cut(dividend: u64, divisor: u64) -> Quotient
    requires { 0 < divisor }
    ensures all { result ≡ quotient_of dividend divisor }
    ensures quotient { result.whole ≡ dividend cut_by divisor }
    ensures law { Divides dividend result }
{
    Quotient {
        whole: dividend / divisor,
        cut_off: dividend % divisor,
        divisor,
    }
}

// A whole number where nothing was divided.
pub fn undivided(n: u64) -> Quotient
    ensures { result ≡ undivided n }
{
    Quotient {
        whole: n,
        cut_off: 0,
        divisor: 0,
    }
}

// `a` less `b`, which may fall below zero.
pub fn less(a: u64, b: u64) -> i64
    requires { (a < 2 ^ 63) × (b < 2 ^ 63) }
    ensures { result ≡ pos a -ℤ pos b }
{
    (a as i64) - (b as i64)
}

// `a` and `b` together, where each may be below zero.
pub fn plus(a: i64, b: i64) -> i64
    requires { nat_abs a + nat_abs b < 2 ^ 63 }
    ensures { result ≡ a +ℤ b }
{
    a + b
}

// g without its sign; at the lowest i64 too.
pub fn magnitude(g: i64) -> u64
    ensures { result ≡ nat_abs g }
{
    g.unsigned_abs()
}
