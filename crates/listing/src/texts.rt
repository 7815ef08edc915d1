// The lines of 01, The listing: the texts of a line and the lines of each listing, by number. Texts and lists stand one
// after the other in a table, with where each starts. A constant table is built anew at each use: a call builds it once
// and lends it. Made by docs/tables from specs/HerdLines.antt, specs/Numbered.antt (listed) and
// outputs/specs/Names.antt.
use outputs::{names, total_names};

pub const LINES: [usize; 55] = [
    // Roughage
    names::N_EXCRETION,
    names::TAN_EXCRETION,
    names::N_INTO_GRAZING,
    names::TAN_INTO_GRAZING,
    names::NH3_NGRAZING,
    names::N2_NGRAZING,
    names::NO_NGRAZING,
    names::N2O_NGRAZING,
    names::N_REMAIN_GRAZING,
    names::TAN_REMAIN_GRAZING,
    names::N_INTO_HOUSING,
    names::TAN_INTO_HOUSING,
    names::NH3_NHOUSING,
    names::N_OUTHOUSING,
    names::TAN_OUTHOUSING,
    // Cattle and DairyCow
    names::N_EXCRETION,
    names::TAN_EXCRETION,
    names::N_INTO_YARD,
    names::TAN_INTO_YARD,
    names::NH3_NYARD,
    names::N_OUTYARD_LIQUID,
    names::TAN_OUTYARD_LIQUID,
    names::N_INTO_GRAZING,
    names::TAN_INTO_GRAZING,
    names::NH3_NGRAZING,
    names::N2_NGRAZING,
    names::NO_NGRAZING,
    names::N2O_NGRAZING,
    names::N_REMAIN_GRAZING,
    names::TAN_REMAIN_GRAZING,
    names::N_INTO_HOUSING,
    names::TAN_INTO_HOUSING,
    // Pigs
    names::N_EXCRETION,
    names::TAN_EXCRETION,
    names::N_INTO_GRAZING,
    names::TAN_INTO_GRAZING,
    names::NH3_NGRAZING,
    names::N2_NGRAZING,
    names::NO_NGRAZING,
    names::N2O_NGRAZING,
    names::N_REMAIN_GRAZING,
    names::TAN_REMAIN_GRAZING,
    names::N_INTO_HOUSING,
    names::TAN_INTO_HOUSING,
    names::NH3_NHOUSING,
    names::N_OUTHOUSING_LIQUID,
    names::TAN_OUTHOUSING_LIQUID,
    names::N_OUTHOUSING_SOLID,
    names::TAN_OUTHOUSING_SOLID,
    names::N2_NSOLID,
    names::NO_NSOLID,
    names::N2O_NSOLID,
    names::N2_NLIQUID,
    names::NO_NLIQUID,
    names::N2O_NLIQUID,
];

pub const LINE_STARTS: [usize; 4] = [0, 15, 32, 55];

// What stands in a herd's line between its owner and its amount, by the number of the name.
pub const MIDDLES: [u8; 734] = *b"\
::Excretion,n_excretion,\
::Excretion,tan_excretion,\
::Yard,n_into_yard,\
::Yard,tan_into_yard,\
::Yard,nh3_nyard,\
::Yard,n_outyard_liquid,\
::Yard,tan_outyard_liquid,\
::Grazing,n_into_grazing,\
::Grazing,tan_into_grazing,\
::Grazing,nh3_ngrazing,\
::Grazing,n2_ngrazing,\
::Grazing,no_ngrazing,\
::Grazing,n2o_ngrazing,\
::Grazing,n_remain_grazing,\
::Grazing,tan_remain_grazing,\
::Housing,n_into_housing,\
::Housing,tan_into_housing,\
::Housing,nh3_nhousing,\
::Housing,n_outhousing,\
::Housing,tan_outhousing,\
::Housing,tan_air_scrubber,\
::Housing,n_outhousing_liquid,\
::Housing,tan_outhousing_liquid,\
::Housing,n_outhousing_solid,\
::Housing,tan_outhousing_solid,\
::NxOx,n2_nsolid,\
::NxOx,no_nsolid,\
::NxOx,n2o_nsolid,\
::NxOx,n2_nliquid,\
::NxOx,no_nliquid,\
::NxOx,n2o_nliquid,\
";

pub const STARTS: [usize; 32] = [
    0, 24, 50, 69, 90, 107, 131, 157, 182, 209, 232, 254, 276, 299, 326, 355, 380, 407, 430, 453,
    478, 505, 535, 567, 596, 627, 644, 661, 679, 697, 715, 734,
];

// What the totals' lines begin with: an empty label, and the path.
pub const TOTAL_OWNER: [u8; 10] = *b",Livestock";

// The totals' lines.
pub const TOTAL_LINES: [usize; 18] = [
    total_names::N_EXCRETION,
    total_names::TAN_EXCRETION,
    total_names::N_INTO_HOUSING,
    total_names::TAN_INTO_HOUSING,
    total_names::N_INTO_YARD,
    total_names::TAN_INTO_YARD,
    total_names::N_INTO_GRAZING,
    total_names::TAN_INTO_GRAZING,
    total_names::NH3_NHOUSING,
    total_names::NH3_NYARD,
    total_names::NH3_NGRAZING,
    total_names::NH3_NHOUSING_AND_YARD,
    total_names::NH3_NLIVESTOCK,
    total_names::N2_NGRAZING,
    total_names::NO_NGRAZING,
    total_names::N2O_NGRAZING,
    total_names::N_REMAIN_GRAZING,
    total_names::TAN_REMAIN_GRAZING,
];

// What stands in a line of the totals between its owner and its amount, by the number of the total.
pub const TOTAL_MIDDLES: [u8; 280] = *b"\
,n_excretion,\
,tan_excretion,\
,n_into_housing,\
,tan_into_housing,\
,n_into_yard,\
,tan_into_yard,\
,n_into_grazing,\
,tan_into_grazing,\
,nh3_nhousing,\
,nh3_nyard,\
,nh3_ngrazing,\
,nh3_nhousing_and_yard,\
,nh3_nlivestock,\
,n2_ngrazing,\
,no_ngrazing,\
,n2o_ngrazing,\
,n_remain_grazing,\
,tan_remain_grazing,\
";

pub const TOTAL_STARTS: [usize; 19] = [
    0, 13, 28, 44, 62, 75, 90, 106, 124, 138, 149, 163, 186, 202, 215, 228, 242, 260, 280,
];
