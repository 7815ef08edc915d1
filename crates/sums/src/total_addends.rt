// The addends of each total by the numbers of their names, one total after the other, and where each total's start.
// Made by docs/tables from the totals of outputs/specs/Names.antt.
use outputs::names;

pub const ADDENDS: [usize; 21] = [
    names::N_EXCRETION,
    names::TAN_EXCRETION,
    names::N_INTO_HOUSING,
    names::TAN_INTO_HOUSING,
    names::N_INTO_YARD,
    names::TAN_INTO_YARD,
    names::N_INTO_GRAZING,
    names::TAN_INTO_GRAZING,
    names::NH3_NHOUSING,
    names::NH3_NYARD,
    names::NH3_NGRAZING,
    names::NH3_NHOUSING,
    names::NH3_NYARD,
    names::NH3_NHOUSING,
    names::NH3_NYARD,
    names::NH3_NGRAZING,
    names::N2_NGRAZING,
    names::NO_NGRAZING,
    names::N2O_NGRAZING,
    names::N_REMAIN_GRAZING,
    names::TAN_REMAIN_GRAZING,
];

pub const STARTS: [usize; 19] = [
    0, 1, 2, 3, 4, 5, 6, 7, 8, 9, 10, 11, 13, 16, 17, 18, 19, 20, 21,
];
