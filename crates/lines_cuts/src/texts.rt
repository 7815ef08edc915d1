// What stands in a line of cuts between its owner and its numbers, by the number of the name, one after the other, and
// where each starts. A constant table is built anew at each use: a call builds it once and lends it. Made by
// docs/tables from the rows of cuts/specs/Names.antt.
use cuts::names;

pub const MIDDLES: [u8; 868] = *b"\
::Excretion,tan_excretion,\
::Yard,n_into_yard,\
::Yard,tan_into_yard,\
::Yard,nh3_nyard,\
::Grazing,n_into_grazing,\
::Grazing,tan_into_grazing,\
::Grazing,nh3_ngrazing,\
::Grazing,n2_ngrazing,\
::Grazing,no_ngrazing,\
::Grazing,n2o_ngrazing,\
::Housing,c_grazing,\
::Housing,ef_nh3_nhousing:er_housing,\
::Housing,ef_nh3_nhousing:c_free_factor_housing,\
::Housing,ef_housing_indoor_before_air_scrubber:c_free_factor_housing,\
::Housing,ef_housing_indoor_before_air_scrubber:red_housing_air,\
::Housing,ef_housing_indoor,\
::Housing,ef_housing_grazing:c_free_factor_housing,\
::Housing,ef_nh3_nhousing:ef_housing_indoor,\
::Housing,ef_nh3_nhousing:ef_housing_grazing,\
::Housing,nh3_nhousing,\
::Housing,tan_air_scrubber:tan_excretion,\
::Housing,tan_air_scrubber:ef_housing_indoor_before_air_scrubber,\
::NxOx,n2_nsolid,\
::NxOx,no_nsolid,\
::NxOx,n2o_nsolid,\
::NxOx,n2_nliquid,\
::NxOx,no_nliquid,\
::NxOx,n2o_nliquid,\
";

pub const STARTS: [usize; 29] = [
    0, 26, 45, 66, 83, 108, 135, 158, 180, 202, 225, 245, 282, 330, 400, 464, 492, 543, 587, 632,
    655, 696, 761, 778, 795, 813, 831, 849, 868,
];

// The names, in the order in which they are listed.
pub const LINES: [usize; 28] = [
    names::TAN_EXCRETION,
    names::N_INTO_YARD,
    names::TAN_INTO_YARD,
    names::NH3_NYARD,
    names::N_INTO_GRAZING,
    names::TAN_INTO_GRAZING,
    names::NH3_NGRAZING,
    names::N2_NGRAZING,
    names::NO_NGRAZING,
    names::N2O_NGRAZING,
    names::C_GRAZING,
    names::EF_NH3_NHOUSING_ER_HOUSING,
    names::EF_NH3_NHOUSING_C_FREE_FACTOR_HOUSING,
    names::EF_HOUSING_INDOOR_BEFORE_AIR_SCRUBBER_C_FREE_FACTOR_HOUSING,
    names::EF_HOUSING_INDOOR_BEFORE_AIR_SCRUBBER_RED_HOUSING_AIR,
    names::EF_HOUSING_INDOOR,
    names::EF_HOUSING_GRAZING_C_FREE_FACTOR_HOUSING,
    names::EF_NH3_NHOUSING_EF_HOUSING_INDOOR,
    names::EF_NH3_NHOUSING_EF_HOUSING_GRAZING,
    names::NH3_NHOUSING,
    names::TAN_AIR_SCRUBBER_TAN_EXCRETION,
    names::TAN_AIR_SCRUBBER_EF_HOUSING_INDOOR_BEFORE_AIR_SCRUBBER,
    names::N2_NSOLID,
    names::NO_NSOLID,
    names::N2O_NSOLID,
    names::N2_NLIQUID,
    names::NO_NLIQUID,
    names::N2O_NLIQUID,
];
