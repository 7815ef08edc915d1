// 02, W8: whether a farm's nh3_nlivestock passes a line of so many grams, and how many herds were added up to tell. The
// definitions in specs/ say which answer that is, and crate `farm_above` finds it.
#![tactic(auto)]

use farm::Answer;

// Yes or no, each with the number of herds that were added up. A flag and a number would be no plainer.
#[derive(Clone, Copy, Debug, PartialEq, Eq)]
pub enum Above {
    Yes(usize),
    No(usize),
}

// The answer of a farm's record, or of a file.
pub type LineAnswer = Answer<Above>;
