// What stands in a record between its label and its value, module and input name, kind by kind in the order of the
// slots: as one text, with the length of each. Made by docs/tables from rows_of of inputs/specs/Inputs.antt.

pub const ROUGHAGE: [u8; 388] = *b"\
Livestock::RoughageConsuming::Excretion,animalcategory \
Livestock::RoughageConsuming::Excretion,animals \
Livestock::RoughageConsuming::Excretion,inp_n_excretion \
Livestock::RoughageConsuming::Excretion,tan_fraction \
Livestock::RoughageConsuming::Housing::CFreeFactor,free_correction_factor \
Livestock::RoughageConsuming::Grazing,grazing_days \
Livestock::RoughageConsuming::Grazing,grazing_hours\
";

pub const ROUGHAGE_LENGTHS: [u8; 7] = [54, 47, 55, 52, 73, 50, 51];

pub const CATTLE: [u8; 435] = *b"\
Livestock::OtherCattle::Excretion,animals \
Livestock::OtherCattle::Excretion,inp_n_excretion \
Livestock::OtherCattle::Excretion,tan_fraction \
Livestock::OtherCattle::Outdoor,yard_days \
Livestock::OtherCattle::Outdoor,exercise_yard \
Livestock::OtherCattle::Outdoor,floor_properties_exercise_yard \
Livestock::OtherCattle::Outdoor,free_correction_factor \
Livestock::OtherCattle::Outdoor,grazing_days \
Livestock::OtherCattle::Outdoor,grazing_hours\
";

pub const CATTLE_LENGTHS: [u8; 9] = [41, 49, 46, 41, 45, 62, 54, 44, 45];

pub const PIGS: [u8; 481] = *b"\
Livestock::FatteningPigs::Excretion,animals \
Livestock::FatteningPigs::Excretion,inp_n_excretion \
Livestock::FatteningPigs::Excretion,tan_fraction \
Livestock::FatteningPigs::Housing::Type,housing_type \
Livestock::FatteningPigs::Housing::AirScrubber,air_scrubber \
Livestock::FatteningPigs::Housing::MitigationOptions,mitigation_housing_floor \
Livestock::FatteningPigs::Housing::MitigationOptions,mitigation_housing_air \
Livestock::FatteningPigs::Housing::CFreeFactor,free_correction_factor\
";

pub const PIGS_LENGTHS: [u8; 8] = [43, 51, 48, 52, 59, 77, 75, 69];

pub const DAIRY_COW: [u8; 408] = *b"\
Livestock::DairyCow::Excretion,animals \
Livestock::DairyCow::Excretion,inp_n_excretion \
Livestock::DairyCow::Excretion,tan_fraction \
Livestock::DairyCow::Outdoor,yard_days \
Livestock::DairyCow::Outdoor,exercise_yard \
Livestock::DairyCow::Outdoor,floor_properties_exercise_yard \
Livestock::DairyCow::Outdoor,free_correction_factor \
Livestock::DairyCow::Outdoor,grazing_days \
Livestock::DairyCow::Outdoor,grazing_hours\
";

pub const DAIRY_COW_LENGTHS: [u8; 9] = [38, 46, 43, 38, 42, 59, 51, 41, 42];
