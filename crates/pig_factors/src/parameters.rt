// 2.52 to 2.62, Technical Parameters: what the names of a pig house stand for.
ghost use Rattle.std.specs.Prelude.{◌≡◌};
ghost use Rattle.amounts.specs.Units.{tenths, billionths};
ghost use Rattle.amounts.specs.Bounds.{UpTo};
ghost use Rattle.pig_house.specs.Parameters.{nxox_rates, slurry_rates, solid_rates, no_rates, row_of};
ghost use Rattle.pig_house.specs.Parameters.{er_housing, share_liquid, share_indoor, rates_of};
ghost use Rattle.pig_house.specs.Parameters.{red_air_scrubber, red_housing_floor, red_housing_air};
ghost use Rattle.pig_house.specs.Bounds.{NxOxRatesOf};

use kinds::{AirScrubber, HousingAir, HousingFloor, HousingType};
use pig_house::{HousingRow, NxOxRates};

// Reductions of 2.58 and 2.59, in tenths.
const RED_ACID_AIR_SCRUBBER: u64 = 9;

const RED_BIOTRICKLING_FILTER_AIR_SCRUBBER: u64 = 7;

const RED_LOW_IMPULS_AIR_SUPPLY: u64 = 2;

// A thousandth, in billionths.
const THOUSANDTH: u64 = 1000000;

// ---- the gases of 2.62, in ten-thousandths

// The same rates from both fractions.
fn of_both(n2: u64, no: u64, n2o: u64) -> NxOxRates
    ensures { result ≡ nxox_rates n2 no n2o n2 no n2o }
{
    NxOxRates {
        er_n2_nsolid: n2,
        er_no_nsolid: no,
        er_n2o_nsolid: n2o,
        er_n2_nliquid: n2,
        er_no_nliquid: no,
        er_n2o_nliquid: n2o,
    }
}

// er_…_solid_Slurry and er_…_liquid_Slurry.
fn slurry_rates() -> NxOxRates
    ensures { result ≡ slurry_rates }
{
    of_both(200, 20, 20)
}

// er_…_solid_Solid and er_…_liquid_Solid.
fn solid_rates() -> NxOxRates
    ensures { result ≡ solid_rates }
{
    of_both(500, 100, 100)
}

// Outdoors there are none.
fn no_rates() -> NxOxRates
    ensures { result ≡ no_rates }
{
    of_both(0, 0, 0)
}

// ---- the types of housing, a row each, under its section

fn row(er: u64, share_liquid: u64, share_indoor: u64, rates: NxOxRates) -> HousingRow
    ensures { result
        ≡ record { er = er; share_liquid = share_liquid; share_indoor = share_indoor; rates = rates } }
{
    HousingRow {
        er,
        share_liquid,
        share_indoor,
        rates,
    }
}

#[tactic(auto, using(pig_house::proofs::Factor::row_steps))]
fn row_of(housing: HousingType) -> HousingRow
    ensures { result ≡ row_of housing }
{
    match housing {
        HousingType::SlurryConventional => row(243, 1, 10, slurry_rates()), // 2.53
        HousingType::SlurryLabel => row(486, 1, 5, slurry_rates()), // 2.54
        HousingType::SlurryLabelOpen => row(340, 1, 5, slurry_rates()), // 2.55
        HousingType::DeepLitter => row(486, 0, 10, solid_rates()), // 2.56
        HousingType::Outdoor => row(0, 0, 10, no_rates()), // 2.57
    }
}

// The emission rate, in billionths.
#[tactic(auto, using(pig_house::proofs::Factor::row_steps))]
pub fn er_housing(housing: HousingType) -> u64
    ensures { UpTo billionths (er_housing housing) result }
{
    row_of(housing).er * THOUSANDTH
}

// The part that leaves the house as slurry: all or nothing.
#[tactic(auto, using(pig_house::proofs::Factor::row_steps))]
pub fn share_liquid(housing: HousingType) -> u64
    ensures { UpTo 1 (share_liquid housing) result }
{
    row_of(housing).share_liquid
}

// The part that mitigation indoors reaches, in tenths.
#[tactic(auto, using(pig_house::proofs::Factor::row_steps))]
pub fn share_indoor(housing: HousingType) -> u64
    ensures { UpTo tenths (share_indoor housing) result }
{
    row_of(housing).share_indoor
}

// The rates of the gases.
#[tactic(auto, using(pig_house::proofs::Fractions::fraction_steps))]
pub fn rates_of(housing: HousingType) -> NxOxRates
    ensures { NxOxRatesOf (rates_of housing) result }
{
    row_of(housing).rates
}

// ---- the other names

// What a scrubber takes from the air, in tenths.
pub fn red_air_scrubber(scrubber: AirScrubber) -> u64
    ensures { UpTo tenths (red_air_scrubber scrubber) result }
{
    match scrubber {
        AirScrubber::Acid => RED_ACID_AIR_SCRUBBER,
        AirScrubber::Biotrickling => RED_BIOTRICKLING_FILTER_AIR_SCRUBBER,
        AirScrubber::None => 0,
    }
}

// What a floor takes off: no selection is available.
#[tactic(auto, using(pig_house::proofs::Factor::row_steps))]
pub fn red_housing_floor(floor: HousingFloor) -> u64
    ensures { UpTo 1 (red_housing_floor floor) result }
{
    match floor {
        HousingFloor::None => 0,
    }
}

// What the air supply takes off, in tenths.
pub fn red_housing_air(air: HousingAir) -> u64
    ensures { UpTo tenths (red_housing_air air) result }
{
    match air {
        HousingAir::LowImpulsAirSupply => RED_LOW_IMPULS_AIR_SUPPLY,
        HousingAir::None => 0,
    }
}
