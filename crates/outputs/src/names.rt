// The names of a herd's figures by number: `figures.grams[names::N_EXCRETION]`. Made by docs/tables from the rows of
// specs/Names.antt.

pub const N_EXCRETION: usize = 0;

pub const TAN_EXCRETION: usize = 1;

pub const N_INTO_YARD: usize = 2;

pub const TAN_INTO_YARD: usize = 3;

pub const NH3_NYARD: usize = 4;

pub const N_OUTYARD_LIQUID: usize = 5;

pub const TAN_OUTYARD_LIQUID: usize = 6;

pub const N_INTO_GRAZING: usize = 7;

pub const TAN_INTO_GRAZING: usize = 8;

pub const NH3_NGRAZING: usize = 9;

pub const N2_NGRAZING: usize = 10;

pub const NO_NGRAZING: usize = 11;

pub const N2O_NGRAZING: usize = 12;

pub const N_REMAIN_GRAZING: usize = 13;

pub const TAN_REMAIN_GRAZING: usize = 14;

pub const N_INTO_HOUSING: usize = 15;

pub const TAN_INTO_HOUSING: usize = 16;

pub const NH3_NHOUSING: usize = 17;

pub const N_OUTHOUSING: usize = 18;

pub const TAN_OUTHOUSING: usize = 19;

pub const TAN_AIR_SCRUBBER: usize = 20;

pub const N_OUTHOUSING_LIQUID: usize = 21;

pub const TAN_OUTHOUSING_LIQUID: usize = 22;

pub const N_OUTHOUSING_SOLID: usize = 23;

pub const TAN_OUTHOUSING_SOLID: usize = 24;

pub const N2_NSOLID: usize = 25;

pub const NO_NSOLID: usize = 26;

pub const N2O_NSOLID: usize = 27;

pub const N2_NLIQUID: usize = 28;

pub const NO_NLIQUID: usize = 29;

pub const N2O_NLIQUID: usize = 30;

// How many names there are.
pub const COUNT: usize = 31;
