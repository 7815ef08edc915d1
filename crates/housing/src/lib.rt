// The flow through the housing door, and 2.85 to 2.87: the housing of other roughage-consuming animals and its ammonia.
// Factors are in billionths. The coefficient 0.9989 that 2.87 prints stands in no formula there, and none here.
#![tactic(auto)]

ghost use Rattle.std.specs.Prelude.{◌≡◌, ◌≤◌, ◌<◌, ◌^◌};
ghost use Rattle.cut_division.specs.Cut.{least};
ghost use Rattle.amounts.specs.Units.{billionths, year, day};
ghost use Rattle.amounts.specs.Dividing.{dividing, uncut};
ghost use Rattle.amounts.specs.Bounds.{WithinMostN, PortionOf, UpTo};
ghost use Rattle.kinds.specs.Sound.{SoundRoughage};
ghost use Rattle.housing.specs.Housing.{above_ceiling, factors, no_factors, handed_factors};
ghost use Rattle.housing.specs.Housing.{in_housing, through_door, handed_housing};
ghost use Rattle.housing.specs.Bounds.{Grown};

use amounts::{BILLIONTHS, DAY, PERCENT, THOUSANDTHS, YEAR, YEAR_OF_HOURS};
use cut_division::Quotient;
use kinds::Roughage;

// What the emission factor is made of: c_grazing, multiplied by er_housing, and then by c_free_factor_housing.
#[derive(Clone, Copy, Debug, PartialEq, Eq)]
pub struct Factors {
    pub c_grazing: Quotient,
    pub times_er_housing: Quotient,
    pub times_c_free_factor_housing: Quotient,
}

#[derive(Clone, Copy, Debug, PartialEq, Eq)]
pub struct Housing {
    pub n_into_housing: u64,
    pub tan_into_housing: u64,
    pub factors: Factors,
    pub nh3_nhousing: Quotient,
    pub n_outhousing: u64,
    pub tan_outhousing: u64,
}

// er_housing, in thousandths.
const ER_HOUSING: u64 = 275;

// How much more of the TAN is emitted for the hours on pasture.
#[tactic(auto, using(crate::proofs::InHousing::growth_steps))]
fn c_grazing(days: u64, hours: u64) -> Quotient
    requires { (days ≤ year) × (hours ≤ day) }
    ensures { Grown days hours result }
{
    if days * hours < YEAR_OF_HOURS {
        let other_days = (YEAR - days) * DAY * BILLIONTHS;
        let grazing_days = days * (DAY - hours) * tables::k(hours);
        cut_division::cut(other_days + grazing_days, YEAR_OF_HOURS - hours * days)
    } else {
        cut_division::undivided(BILLIONTHS)
    }
}

// The rate, then the free factor.
#[tactic(auto, using(crate::proofs::InHousing::factors_steps, kinds::proofs::Leaves::free_steps))]
fn factors_of(r: Roughage) -> Factors
    requires { SoundRoughage r }
    ensures { result ≡ handed_factors (factors dividing r) }
{
    let c = c_grazing(r.grazing_days, r.grazing_hours);
    let rate = amounts::portion(c.whole, ER_HOUSING, THOUSANDTHS);
    let left = kinds::free::c_free_factor(r.free_correction_factor);
    let factor = amounts::portion_to_twice(rate.whole, left, PERCENT);
    Factors {
        c_grazing: c,
        times_er_housing: rate,
        times_c_free_factor_housing: factor,
    }
}

// A kind without them.
#[tactic(auto, using(crate::proofs::InHousing::factors_steps))]
pub fn no_factors() -> Factors
    ensures { result ≡ handed_factors (no_factors dividing) }
{
    let none = cut_division::undivided(0);
    Factors {
        c_grazing: none,
        times_er_housing: none,
        times_c_free_factor_housing: none,
    }
}

// Whether the factor is above the ceiling of 1.
#[tactic(auto, using(crate::proofs::InHousing::factors_steps))]
pub fn above_ceiling(r: Roughage) -> bool
    requires { SoundRoughage r }
    ensures { result ≡ above_ceiling r }
{
    BILLIONTHS < factors_of(r).times_c_free_factor_housing.whole
}

// The part of the TAN that the housing emits: the last of the factors, then the ceiling of 1.
#[tactic(auto, using(amounts::proofs::Amounts::up_to_ceiling))]
fn ef_nh3_nhousing(f: Factors) -> u64
    ensures { UpTo billionths (least f.times_c_free_factor_housing.whole billionths) result }
{
    f.times_c_free_factor_housing.whole.min(BILLIONTHS)
}

// The ammonia from so much TAN in the housing.
#[tactic(auto, using(amounts::proofs::Amounts::shares_found))]
fn nh3_in_housing(f: Factors, tan: u64) -> Quotient
    requires { tan < 2 ^ 32 }
    ensures { PortionOf tan (least f.times_c_free_factor_housing.whole billionths) billionths result }
{
    amounts::portion(tan, ef_nh3_nhousing(f), BILLIONTHS)
}

// The housing of a roughage herd into which so much N and TAN goes.
#[tactic(auto, using(crate::proofs::InHousing::housing_steps))]
pub fn in_housing(r: Roughage, n: u64, tan: u64) -> Housing
    requires { SoundRoughage r × WithinMostN n tan }
    ensures { result ≡ handed_housing (factors dividing r) (in_housing dividing r (uncut n) (uncut tan)) }
{
    let factors = factors_of(r);
    let nh3 = nh3_in_housing(factors, tan);
    Housing {
        n_into_housing: n,
        tan_into_housing: tan,
        factors,
        nh3_nhousing: nh3,
        n_outhousing: n - nh3.whole,
        tan_outhousing: tan - nh3.whole,
    }
}

// Only the flow through the door.
#[tactic(auto, using(crate::proofs::InHousing::housing_steps))]
pub fn through_door(n: u64, tan: u64) -> Housing
    ensures { result ≡ handed_housing (no_factors dividing) (through_door dividing (uncut n) (uncut tan)) }
{
    Housing {
        n_into_housing: n,
        tan_into_housing: tan,
        factors: no_factors(),
        nh3_nhousing: cut_division::undivided(0),
        n_outhousing: 0,
        tan_outhousing: 0,
    }
}
