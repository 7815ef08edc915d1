// The units of the formulas, and a portion of an amount with one cut. Every division that a herd's formulas make is
// that of `portion` or of `portion_to_twice`, but for c_grazing, which cuts a sum (crate `housing`).
#![tactic(auto)]

ghost use Rattle.amounts.specs.Bounds.{WithinMostN, FitsPortion, PortionOf};
ghost use Rattle.amounts.specs.Bounds.{FitsPortionTwice, PortionToTwice, PortionsOf};

use cut_division::Quotient;

// Days of a year; a day, in tenths of an hour; a year of such days.
pub const YEAR: u64 = 365;

pub const DAY: u64 = 240;

pub const YEAR_OF_HOURS: u64 = DAY * YEAR;

// What makes the whole of a share, in each unit.
pub const TENTHS: u64 = 10;

pub const PERCENT: u64 = 100;

pub const THOUSANDTHS: u64 = 1000;

pub const TEN_THOUSANDTHS: u64 = 10000;

pub const BILLIONTHS: u64 = 1000000000;

// A portion of the N, and the same of the TAN in it.
#[derive(Clone, Copy, Debug, PartialEq, Eq)]
pub struct Parts {
    pub n: Quotient,
    pub tan: Quotient,
}

// `shares` of the `of` that make the whole.
#[tactic(auto, using(crate::proofs::Amounts::portion_steps))]
pub fn portion(amount: u64, shares: u64, of: u64) -> Quotient
    requires { FitsPortion amount shares of }
    ensures { PortionOf amount shares of result }
{
    cut_division::cut(amount * shares, of)
}

// The same of up to twice the shares that make the whole: a function of its own, since it promises less.
#[tactic(auto, using(crate::proofs::Amounts::twice_steps))]
pub fn portion_to_twice(amount: u64, shares: u64, of: u64) -> Quotient
    requires { FitsPortionTwice amount shares of }
    ensures { PortionToTwice amount shares of result }
{
    cut_division::cut(amount * shares, of)
}

// "Done for N and for TAN" (01).
#[tactic(auto, using(crate::proofs::Amounts::portions_steps))]
pub fn portions(n: u64, tan: u64, shares: u64, of: u64) -> Parts
    requires { WithinMostN n tan × FitsPortion n shares of }
    ensures { PortionsOf n tan shares of result }
{
    Parts {
        n: portion(n, shares, of),
        tan: portion(tan, shares, of),
    }
}
