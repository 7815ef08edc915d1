// 01, Notes, and 02, W3 and W9: what an adviser is told beside the figures. The definitions in specs/ say when, and
// crate `herd_notes` computes it.
#![tactic(auto)]

#[derive(Clone, Copy, Debug, PartialEq, Eq, Default)]
pub struct Notes {
    pub n_off_standard: bool,
    pub tan_off_standard: bool,
    pub free_factor: bool,
    pub share_lowered: bool,
    pub factor_above_1: bool,
}

// How many notes there are.
pub const COUNT: usize = 5;
