// 2.51, ef_nh3_nhousing and what it is made of, in billionths. Each product is cut before the next, in the order of the
// page.
#![tactic(auto, using(pig_house::proofs::Factor::factor_steps, kinds::proofs::Leaves::free_steps))]

ghost use Rattle.std.specs.Prelude.{◌≡◌};
ghost use Rattle.cut_division.specs.Cut.{least};
ghost use Rattle.amounts.specs.Units.{billionths};
ghost use Rattle.amounts.specs.Arithmetic.{cutting};
ghost use Rattle.amounts.specs.Dividing.{dividing};
ghost use Rattle.amounts.specs.Bounds.{UpTo};
ghost use Rattle.kinds.specs.Sound.{SoundPigs};
ghost use Rattle.pig_house.specs.PigHouse.{before_with_free, before_with_air};
ghost use Rattle.pig_house.specs.PigHouse.{ef_housing_indoor_before_air_scrubber, with_scrubber};
ghost use Rattle.pig_house.specs.PigHouse.{ef_housing_indoor};
ghost use Rattle.pig_house.specs.PigHouse.{grazing_with_free, ef_housing_grazing, indoor_part, grazing_part};
ghost use Rattle.pig_house.specs.PigHouse.{ef_nh3_nhousing, pig_factors, handed_pig_factors};
ghost use Rattle.pig_house.specs.Bounds.{FactorOf};

use crate::parameters;
use amounts::{BILLIONTHS, PERCENT, TENTHS};
use cut_division::Quotient;
use kinds::Pigs;
use pig_house::PigFactors;

// c_area: animal places count as equal to the animals.
const C_AREA: u64 = 1;

// The ceiling of 1.
#[tactic(auto, using(amounts::proofs::Amounts::up_to_ceiling))]
fn at_most_one(factor: u64) -> u64
    ensures { UpTo billionths (least factor billionths) result }
{
    factor.min(BILLIONTHS)
}

// er_housing × c_area × c_free_factor_housing.
fn before_with_free(p: Pigs) -> Quotient
    requires { SoundPigs p }
    ensures { FactorOf (before_with_free dividing p) result }
{
    let rate = parameters::er_housing(p.housing_type) * C_AREA;
    let left = kinds::free::c_free_factor(p.free_correction_factor);
    amounts::portion_to_twice(rate, left, PERCENT)
}

// Then what floor and air leave.
fn before_with_air(p: Pigs) -> Quotient
    requires { SoundPigs p }
    ensures { FactorOf (before_with_air dividing p) result }
{
    let left = (1 - parameters::red_housing_floor(p.mitigation_housing_floor))
        * (TENTHS - parameters::red_housing_air(p.mitigation_housing_air));
    amounts::portion(before_with_free(p).whole, left, TENTHS)
}

// Then the ceiling.
pub fn ef_housing_indoor_before_air_scrubber(p: Pigs) -> u64
    requires { SoundPigs p }
    ensures { UpTo billionths (ef_housing_indoor_before_air_scrubber cutting p) result }
{
    at_most_one(before_with_air(p).whole)
}

// And what a scrubber leaves of it.
fn with_scrubber(p: Pigs) -> Quotient
    requires { SoundPigs p }
    ensures { FactorOf (with_scrubber dividing p) result }
{
    let left = TENTHS - parameters::red_air_scrubber(p.air_scrubber);
    amounts::portion(ef_housing_indoor_before_air_scrubber(p), left, TENTHS)
}

// Then the ceiling.
fn ef_housing_indoor(p: Pigs) -> u64
    requires { SoundPigs p }
    ensures { UpTo billionths (ef_housing_indoor cutting p) result }
{
    at_most_one(with_scrubber(p).whole)
}

// er_housing × c_free_factor_housing × c_area.
fn grazing_with_free(p: Pigs) -> Quotient
    requires { SoundPigs p }
    ensures { FactorOf (grazing_with_free dividing p) result }
{
    let rate = parameters::er_housing(p.housing_type);
    let left = kinds::free::c_free_factor(p.free_correction_factor);
    amounts::portion_to_twice(rate, left * C_AREA, PERCENT)
}

// Then the ceiling.
fn ef_housing_grazing(p: Pigs) -> u64
    requires { SoundPigs p }
    ensures { UpTo billionths (ef_housing_grazing cutting p) result }
{
    at_most_one(grazing_with_free(p).whole)
}

fn indoor_part(p: Pigs) -> Quotient
    requires { SoundPigs p }
    ensures { FactorOf (indoor_part dividing p) result }
{
    let share = parameters::share_indoor(p.housing_type);
    amounts::portion(ef_housing_indoor(p), share, TENTHS)
}

fn grazing_part(p: Pigs) -> Quotient
    requires { SoundPigs p }
    ensures { FactorOf (grazing_part dividing p) result }
{
    let share = TENTHS - parameters::share_indoor(p.housing_type);
    amounts::portion(ef_housing_grazing(p), share, TENTHS)
}

// The part of the TAN that the house emits: both parts, and then the ceiling.
pub fn ef_nh3_nhousing(p: Pigs) -> u64
    requires { SoundPigs p }
    ensures { UpTo billionths (ef_nh3_nhousing cutting p) result }
{
    at_most_one(indoor_part(p).whole + grazing_part(p).whole)
}

// Each quotient on the way.
pub fn factors_of(p: Pigs) -> PigFactors
    requires { SoundPigs p }
    ensures { result ≡ handed_pig_factors (pig_factors dividing p) }
{
    PigFactors {
        before_times_c_free_factor_housing: before_with_free(p),
        before_times_red_housing_air: before_with_air(p),
        ef_housing_indoor: with_scrubber(p),
        grazing_times_c_free_factor_housing: grazing_with_free(p),
        times_ef_housing_indoor: indoor_part(p),
        times_ef_housing_grazing: grazing_part(p),
    }
}
