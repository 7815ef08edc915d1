// What a farm's records give: a herd's figures, notes and cuts, a farm's totals; grams and kilograms. Crate `answers`
// computes it.
#![tactic(auto)]

use cuts::Cuts;
use farm::Checked;
use kilograms::{Kilograms, TotalKilograms};
use notes::Notes;
use outputs::{Figures, Totals};

// What a herd's record gives: its figures in grams and in kilograms, notes and cuts, or the refusal and zeros. No
// Result: the zeros are promised beside a refusal (`zeros` of specs/Answers).
#[derive(Clone, Copy)]
pub struct HerdAnswer {
    pub checked: Checked,
    pub figures: Figures,
    pub kilograms: Kilograms,
    pub notes: Notes,
    pub cuts: Cuts,
}

// What a farm's record gives: its totals in grams and in kilograms, or the refusal and zeros, as for a herd.
#[derive(Clone, Copy)]
pub struct FarmAnswer {
    pub checked: Checked,
    pub totals: Totals,
    pub kilograms: TotalKilograms,
}
