// The names that a value may be, list by list: how many there are, and the names as one text, with the length of each.
// Made by docs/tables from the lists of specs/Names.antt.

pub const CATEGORIES_COUNT: usize = 11;

pub const CATEGORIES: [u8; 188] = *b"\
fallow_deer \
red_deer \
wapiti \
bison_older_than_3yr \
bison_younger_than_3yr \
lama_older_than_2yr \
lama_younger_than_2yr \
alpaca_older_than_2yr \
alpaca_younger_than_2yr \
rabbit_doe_kits \
rabbit_young\
";

pub const CATEGORIES_LENGTHS: [u8; 11] = [11, 8, 6, 20, 22, 19, 21, 21, 23, 15, 12];

pub const YARDS_COUNT: usize = 4;

pub const YARDS: [u8; 192] = *b"\
not_available \
available_roughage_is_not_supplied_in_the_exercise_yard \
available_roughage_is_partly_supplied_in_the_exercise_yard \
available_roughage_is_exclusively_supplied_in_the_exercise_yard\
";

pub const YARDS_LENGTHS: [u8; 4] = [13, 55, 58, 63];

pub const FLOORS_COUNT: usize = 4;

pub const FLOORS: [u8; 83] = *b"\
solid_floor \
unpaved_floor \
perforated_floor \
paddock_or_pasture_used_as_exercise_yard\
";

pub const FLOORS_LENGTHS: [u8; 4] = [11, 13, 16, 40];

pub const HOUSING_TYPES_COUNT: usize = 5;

pub const HOUSING_TYPES: [u8; 70] = *b"\
Slurry_Conventional \
Slurry_Label \
Slurry_Label_Open \
Deep_Litter \
Outdoor\
";

pub const HOUSING_TYPES_LENGTHS: [u8; 5] = [19, 12, 17, 11, 7];

pub const AIR_SCRUBBERS_COUNT: usize = 3;

pub const AIR_SCRUBBERS: [u8; 22] = *b"\
acid \
biotrickling \
none\
";

pub const AIR_SCRUBBERS_LENGTHS: [u8; 3] = [4, 12, 4];

pub const HOUSING_FLOORS_COUNT: usize = 1;

pub const HOUSING_FLOORS: [u8; 4] = *b"\
none\
";

pub const HOUSING_FLOORS_LENGTHS: [u8; 1] = [4];

pub const HOUSING_AIRS_COUNT: usize = 2;

pub const HOUSING_AIRS: [u8; 26] = *b"\
low_impuls_air_supply \
none\
";

pub const HOUSING_AIRS_LENGTHS: [u8; 2] = [21, 4];
