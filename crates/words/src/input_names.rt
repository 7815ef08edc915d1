// The input names (01, The farm file): their numbers, and the words as one text, with the length of each. Made by
// docs/tables from the input_names of specs/Find.antt.

pub const ANIMALCATEGORY: usize = 0;

pub const ANIMALS: usize = 1;

pub const INP_N_EXCRETION: usize = 2;

pub const TAN_FRACTION: usize = 3;

pub const FREE_CORRECTION_FACTOR: usize = 4;

pub const GRAZING_DAYS: usize = 5;

pub const GRAZING_HOURS: usize = 6;

pub const YARD_DAYS: usize = 7;

pub const EXERCISE_YARD: usize = 8;

pub const FLOOR_PROPERTIES_EXERCISE_YARD: usize = 9;

pub const HOUSING_TYPE: usize = 10;

pub const AIR_SCRUBBER: usize = 11;

pub const MITIGATION_HOUSING_FLOOR: usize = 12;

pub const MITIGATION_HOUSING_AIR: usize = 13;

pub const WORDS: [u8; 230] = *b"\
animalcategory \
animals \
inp_n_excretion \
tan_fraction \
free_correction_factor \
grazing_days \
grazing_hours \
yard_days \
exercise_yard \
floor_properties_exercise_yard \
housing_type \
air_scrubber \
mitigation_housing_floor \
mitigation_housing_air\
";

pub const LENGTHS: [u8; 14] = [14, 7, 15, 12, 22, 12, 13, 9, 13, 30, 12, 12, 24, 22];
