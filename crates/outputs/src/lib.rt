// The output list: what a herd and a farm have figures of, by number. A herd's figures are one array of grams by the
// number of the name, the totals another by the number of the total, and what is done with every name alike is a loop.
// specs/Names.antt has the names, a row each; crate `figure_numbers` fills the one array, crate `sums` adds up.
#![tactic(auto)]

use excretion::Excretion;
use housing::Housing;
use pasture::Grazing;
use pig_house::{NxOx, PigHouse};
use yard::Yard;

pub mod names; // the names by number
pub mod total_names; // the totals by number

// A herd by the sections of 001, as they hand on what they cut: the figures and the cuts of a herd are read off it.
#[derive(Clone, Copy, Debug, PartialEq, Eq)]
pub struct Sections {
    pub excretion: Excretion,
    pub yard: Yard,
    pub grazing: Grazing,
    pub housing: Housing,
    pub pig_house: PigHouse,
    pub nx_ox: NxOx,
}

// A herd's figures in whole grams of nitrogen a year, by the number of the name; 0 where a kind has no such flow.
#[derive(Clone, Copy, Debug, PartialEq, Eq)]
pub struct Figures {
    pub grams: [i64; names::COUNT],
}

// 2.1, a farm's totals in whole grams of nitrogen a year, by the number of the total.
#[derive(Clone, Copy, Debug, PartialEq, Eq)]
pub struct Totals {
    pub grams: [i64; total_names::COUNT],
}
