// A farm's totals that follow the edit (02, W11): the book that is kept beside a farm's herds, the steps that change
// both, and what a step is answered with. What a step does stands in specs/; the crates behind this one do it.
#![tactic(auto)]

use farm::{Farm, Refusal};
use outputs::Totals;

pub mod numbers; // the refusals' numbers

// How many herds the farm has, and what their figures come to.
#[derive(Clone, Copy, Debug, PartialEq, Eq)]
pub struct Book {
    pub count: usize,
    pub totals: Totals,
}

// What is done with the herd that a step names: it is put in as the last, in the place of the one of its label, or
// taken out.
#[derive(Clone, Copy, Debug, PartialEq, Eq)]
pub enum Step {
    Add,
    Replace,
    Remove,
}

// What is wrong: one of 01's refusals, a label that no herd has, or a total that is larger than any farm's. No Option:
// each case is a refusal with a number.
#[derive(Clone, Copy, Debug, PartialEq, Eq)]
pub enum StepRefusal {
    Record(Refusal),
    NotPresent,
    TotalTooLarge,
}

// What was decided of a step: it was done, or why nothing was changed.
pub type Decided = Result<(), StepRefusal>;

// What a step is answered with: what was decided, and the book afterwards.
#[derive(Clone, Copy, Debug, PartialEq, Eq)]
pub struct StepAnswer {
    pub decided: Decided,
    pub book: Book,
}

// What a step on a farm by value comes to: the farm's herds afterwards and their totals. Of a refused step no herd, and
// the totals as they were.
#[derive(Clone, Copy)]
pub struct Stepped {
    pub decided: Decided,
    pub farm: Farm,
    pub totals: Totals,
}

// No stored total may be further from zero, in grams.
pub const TOTAL_MOST: u64 = 10_000_000_000_000;
