// 2.51 to 2.60 and 2.62 (02, W1): what the housing of fattening pigs hands on. The definitions in specs/ say what each
// is, and crates `pig_factors`, `pig_amounts` and `pig_gases` compute it. Factors are in billionths.
#![tactic(auto)]

use cut_division::Quotient;
use housing::Housing;

// What the emission factor is made of, and what an air scrubber keeps back: each quotient on the way.
#[derive(Clone, Copy, Debug, PartialEq, Eq)]
pub struct PigFactors {
    pub before_times_c_free_factor_housing: Quotient,
    pub before_times_red_housing_air: Quotient,
    pub ef_housing_indoor: Quotient,
    pub grazing_times_c_free_factor_housing: Quotient,
    pub times_ef_housing_indoor: Quotient,
    pub times_ef_housing_grazing: Quotient,
}

#[derive(Clone, Copy, Debug, PartialEq, Eq)]
pub struct Scrubbed {
    pub times_tan_excretion: Quotient,
    pub times_ef_housing_indoor_before_air_scrubber: Quotient,
}

// What a pig house has beside what every house has.
#[derive(Clone, Copy, Debug, PartialEq, Eq)]
pub struct PigHouse {
    pub factors: PigFactors,
    pub scrubbed: Scrubbed,
    pub n_outhousing_liquid: u64,
    pub tan_outhousing_liquid: u64,
    pub n_outhousing_solid: u64,
    pub tan_outhousing_solid: u64,
}

// A pig house as a house, and what it has beside.
#[derive(Clone, Copy, Debug, PartialEq, Eq)]
pub struct InPigHouse {
    pub housing: Housing,
    pub pig_house: PigHouse,
}

// 2.62, Technical Parameters, in ten-thousandths.
#[derive(Clone, Copy, Debug, PartialEq, Eq)]
pub struct NxOxRates {
    pub er_n2_nsolid: u64,
    pub er_no_nsolid: u64,
    pub er_n2o_nsolid: u64,
    pub er_n2_nliquid: u64,
    pub er_no_nliquid: u64,
    pub er_n2o_nliquid: u64,
}

// What a type of housing stands for: er of 2.53 to 2.57 in thousandths, share_liquid, all or nothing, share_indoor of
// 2.52 in tenths, the rates of the gases.
#[derive(Clone, Copy, Debug, PartialEq, Eq)]
pub struct HousingRow {
    pub er: u64,
    pub share_liquid: u64,
    pub share_indoor: u64,
    pub rates: NxOxRates,
}

// The gases from one fraction.
#[derive(Clone, Copy, Debug, PartialEq, Eq)]
pub struct FromFraction {
    pub n2: Quotient,
    pub no: Quotient,
    pub n2o: Quotient,
}

// 2.62.
#[derive(Clone, Copy, Debug, PartialEq, Eq)]
pub struct NxOx {
    pub n2_nsolid: Quotient,
    pub no_nsolid: Quotient,
    pub n2o_nsolid: Quotient,
    pub n2_nliquid: Quotient,
    pub no_nliquid: Quotient,
    pub n2o_nliquid: Quotient,
}
