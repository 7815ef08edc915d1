// The paths of modules (01, The farm file): their numbers, and the words as one text, with the length of each. Made by
// docs/tables from the modules of specs/Find.antt.

pub const ROUGHAGE_CONSUMING_EXCRETION: usize = 0;

pub const ROUGHAGE_CONSUMING_HOUSING_CFREE_FACTOR: usize = 1;

pub const ROUGHAGE_CONSUMING_GRAZING: usize = 2;

pub const OTHER_CATTLE_EXCRETION: usize = 3;

pub const OTHER_CATTLE_OUTDOOR: usize = 4;

pub const FATTENING_PIGS_EXCRETION: usize = 5;

pub const FATTENING_PIGS_HOUSING_TYPE: usize = 6;

pub const FATTENING_PIGS_HOUSING_AIR_SCRUBBER: usize = 7;

pub const FATTENING_PIGS_HOUSING_MITIGATION_OPTIONS: usize = 8;

pub const FATTENING_PIGS_HOUSING_CFREE_FACTOR: usize = 9;

pub const DAIRY_COW_EXCRETION: usize = 10;

pub const DAIRY_COW_OUTDOOR: usize = 11;

pub const WORDS: [u8; 477] = *b"\
Livestock::RoughageConsuming::Excretion \
Livestock::RoughageConsuming::Housing::CFreeFactor \
Livestock::RoughageConsuming::Grazing \
Livestock::OtherCattle::Excretion \
Livestock::OtherCattle::Outdoor \
Livestock::FatteningPigs::Excretion \
Livestock::FatteningPigs::Housing::Type \
Livestock::FatteningPigs::Housing::AirScrubber \
Livestock::FatteningPigs::Housing::MitigationOptions \
Livestock::FatteningPigs::Housing::CFreeFactor \
Livestock::DairyCow::Excretion \
Livestock::DairyCow::Outdoor\
";

pub const LENGTHS: [u8; 12] = [39, 50, 37, 33, 31, 35, 39, 46, 52, 46, 30, 28];
