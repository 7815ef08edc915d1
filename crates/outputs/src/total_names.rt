// The names of a farm's totals by number: `totals.grams[total_names::NH3_NLIVESTOCK]`. Made by docs/tables from the
// totals of specs/Names.antt.

pub const N_EXCRETION: usize = 0;

pub const TAN_EXCRETION: usize = 1;

pub const N_INTO_HOUSING: usize = 2;

pub const TAN_INTO_HOUSING: usize = 3;

pub const N_INTO_YARD: usize = 4;

pub const TAN_INTO_YARD: usize = 5;

pub const N_INTO_GRAZING: usize = 6;

pub const TAN_INTO_GRAZING: usize = 7;

pub const NH3_NHOUSING: usize = 8;

pub const NH3_NYARD: usize = 9;

pub const NH3_NGRAZING: usize = 10;

pub const NH3_NHOUSING_AND_YARD: usize = 11;

pub const NH3_NLIVESTOCK: usize = 12;

pub const N2_NGRAZING: usize = 13;

pub const NO_NGRAZING: usize = 14;

pub const N2O_NGRAZING: usize = 15;

pub const N_REMAIN_GRAZING: usize = 16;

pub const TAN_REMAIN_GRAZING: usize = 17;

// How many totals there are.
pub const COUNT: usize = 18;
