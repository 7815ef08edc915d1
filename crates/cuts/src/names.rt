// The names of a herd's cuts by number: `cuts.cut_off[names::TAN_EXCRETION]`. Made by docs/tables from the rows of
// specs/Names.antt.

pub const TAN_EXCRETION: usize = 0;

pub const N_INTO_YARD: usize = 1;

pub const TAN_INTO_YARD: usize = 2;

pub const NH3_NYARD: usize = 3;

pub const N_INTO_GRAZING: usize = 4;

pub const TAN_INTO_GRAZING: usize = 5;

pub const NH3_NGRAZING: usize = 6;

pub const N2_NGRAZING: usize = 7;

pub const NO_NGRAZING: usize = 8;

pub const N2O_NGRAZING: usize = 9;

pub const C_GRAZING: usize = 10;

pub const EF_NH3_NHOUSING_ER_HOUSING: usize = 11;

pub const EF_NH3_NHOUSING_C_FREE_FACTOR_HOUSING: usize = 12;

pub const EF_HOUSING_INDOOR_BEFORE_AIR_SCRUBBER_C_FREE_FACTOR_HOUSING: usize = 13;

pub const EF_HOUSING_INDOOR_BEFORE_AIR_SCRUBBER_RED_HOUSING_AIR: usize = 14;

pub const EF_HOUSING_INDOOR: usize = 15;

pub const EF_HOUSING_GRAZING_C_FREE_FACTOR_HOUSING: usize = 16;

pub const EF_NH3_NHOUSING_EF_HOUSING_INDOOR: usize = 17;

pub const EF_NH3_NHOUSING_EF_HOUSING_GRAZING: usize = 18;

pub const NH3_NHOUSING: usize = 19;

pub const TAN_AIR_SCRUBBER_TAN_EXCRETION: usize = 20;

pub const TAN_AIR_SCRUBBER_EF_HOUSING_INDOOR_BEFORE_AIR_SCRUBBER: usize = 21;

pub const N2_NSOLID: usize = 22;

pub const NO_NSOLID: usize = 23;

pub const N2O_NSOLID: usize = 24;

pub const N2_NLIQUID: usize = 25;

pub const NO_NLIQUID: usize = 26;

pub const N2O_NLIQUID: usize = 27;

// How many names there are.
pub const COUNT: usize = 28;
