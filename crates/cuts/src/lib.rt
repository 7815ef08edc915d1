// The list of cuts (02, W7): every division that a herd's formulas make, by number. A herd's cuts are what was cut off
// and the divisor, each an array by the number of the name; where no such cut was made both are 0. specs/Names.antt has
// the names, a row each; crate `cut_numbers` fills the arrays.
#![tactic(auto)]

pub mod names; // the names by number

// What was cut off, and by what was divided, by the number of the name.
#[derive(Clone, Copy, Debug, PartialEq, Eq)]
pub struct Cuts {
    pub cut_off: [u64; names::COUNT],
    pub divisor: [u64; names::COUNT],
}
