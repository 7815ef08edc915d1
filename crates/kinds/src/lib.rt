// The inputs of each kind of herd, typed and complete, under the names of 01's list: grams a head, ten-thousandths of
// them, percent, days of a year, tenths of an hour.
#![tactic(auto)]

pub mod choices; // the choices by their places in 01's lists
pub mod free; // what a free factor leaves

// A number that was entered, or `standard` in its place. No Option: `standard` is a word of the file, and no number
// that is missing.
#[derive(Clone, Copy, Debug, PartialEq, Eq)]
pub enum Entered {
    Standard,
    Number(u64),
}

// 2.34 and 2.19, share_excretion.
#[derive(Clone, Copy, Debug, PartialEq, Eq)]
pub enum ExerciseYard {
    NotAvailable,
    NotSupplied,
    Partly,
    Exclusively,
}

// 2.34 and 2.19, c_floor_properties_exercise_yard.
#[derive(Clone, Copy, Debug, PartialEq, Eq)]
pub enum Floor {
    Solid,
    Unpaved,
    Perforated,
    Paddock,
}

// 2.62.
#[derive(Clone, Copy, Debug, PartialEq, Eq)]
pub enum HousingType {
    SlurryConventional,
    SlurryLabel,
    SlurryLabelOpen,
    DeepLitter,
    Outdoor,
}

// 2.58, red_air_scrubber.
#[derive(Clone, Copy, Debug, PartialEq, Eq)]
pub enum AirScrubber {
    Acid,
    Biotrickling,
    None,
}

// 2.59, red_housing_floor.
#[derive(Clone, Copy, Debug, PartialEq, Eq)]
pub enum HousingFloor {
    None,
}

// 2.59, red_housing_air.
#[derive(Clone, Copy, Debug, PartialEq, Eq)]
pub enum HousingAir {
    LowImpulsAirSupply,
    None,
}

// 2.33 and 2.18, the module `Outdoor`: exercise yard and grazing.
#[derive(Clone, Copy, Debug, PartialEq, Eq)]
pub struct Outdoor {
    pub yard_days: u64,
    pub exercise_yard: ExerciseYard,
    pub floor_properties_exercise_yard: Floor,
    pub free_correction_factor: i64,
    pub grazing_days: u64,
    pub grazing_hours: u64,
}

// Other roughage-consuming animals.
#[derive(Clone, Copy, Debug, PartialEq, Eq)]
pub struct Roughage {
    pub animalcategory: u64,
    pub animals: u64,
    pub inp_n_excretion: Entered,
    pub tan_fraction: Entered,
    pub free_correction_factor: i64,
    pub grazing_days: u64,
    pub grazing_hours: u64,
}

// Cattle by the section of their excretion: 2.22, or 2.2 (02, W9).
#[derive(Clone, Copy, Debug, PartialEq, Eq)]
pub enum CattleKind {
    OtherCattle,
    DairyCow,
}

// Other cattle and dairy cows. `standard` for TAN is read for dairy cows alone.
#[derive(Clone, Copy, Debug, PartialEq, Eq)]
pub struct Cattle {
    pub kind: CattleKind,
    pub animals: u64,
    pub inp_n_excretion: u64,
    pub tan_fraction: Entered,
    pub outdoor: Outdoor,
}

// Fattening pigs.
#[derive(Clone, Copy, Debug, PartialEq, Eq)]
pub struct Pigs {
    pub animals: u64,
    pub inp_n_excretion: u64,
    pub tan_fraction: u64,
    pub housing_type: HousingType,
    pub air_scrubber: AirScrubber,
    pub mitigation_housing_floor: HousingFloor,
    pub mitigation_housing_air: HousingAir,
    pub free_correction_factor: i64,
}

#[derive(Clone, Copy, Debug, PartialEq, Eq)]
pub enum Inputs {
    Roughage(Roughage),
    Cattle(Cattle),
    Pigs(Pigs),
}
