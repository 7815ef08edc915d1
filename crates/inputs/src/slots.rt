// The slots of a kind's inputs by name, `slots::CATTLE_YARD_DAYS`, and how many they are. Kinds whose inputs have the
// same names, in the same order, have one set. Made by docs/tables from rows_of of specs/Inputs.antt.

// Roughage
pub const ROUGHAGE_ANIMALCATEGORY: usize = 0;

pub const ROUGHAGE_ANIMALS: usize = 1;

pub const ROUGHAGE_INP_N_EXCRETION: usize = 2;

pub const ROUGHAGE_TAN_FRACTION: usize = 3;

pub const ROUGHAGE_FREE_CORRECTION_FACTOR: usize = 4;

pub const ROUGHAGE_GRAZING_DAYS: usize = 5;

pub const ROUGHAGE_GRAZING_HOURS: usize = 6;

pub const ROUGHAGE_COUNT: usize = 7;

// Cattle and DairyCow
pub const CATTLE_ANIMALS: usize = 0;

pub const CATTLE_INP_N_EXCRETION: usize = 1;

pub const CATTLE_TAN_FRACTION: usize = 2;

pub const CATTLE_YARD_DAYS: usize = 3;

pub const CATTLE_EXERCISE_YARD: usize = 4;

pub const CATTLE_FLOOR_PROPERTIES_EXERCISE_YARD: usize = 5;

pub const CATTLE_FREE_CORRECTION_FACTOR: usize = 6;

pub const CATTLE_GRAZING_DAYS: usize = 7;

pub const CATTLE_GRAZING_HOURS: usize = 8;

pub const CATTLE_COUNT: usize = 9;

// Pigs
pub const PIGS_ANIMALS: usize = 0;

pub const PIGS_INP_N_EXCRETION: usize = 1;

pub const PIGS_TAN_FRACTION: usize = 2;

pub const PIGS_HOUSING_TYPE: usize = 3;

pub const PIGS_AIR_SCRUBBER: usize = 4;

pub const PIGS_MITIGATION_HOUSING_FLOOR: usize = 5;

pub const PIGS_MITIGATION_HOUSING_AIR: usize = 6;

pub const PIGS_FREE_CORRECTION_FACTOR: usize = 7;

pub const PIGS_COUNT: usize = 8;
