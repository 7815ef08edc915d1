// What a record says by itself: refusals 3 to 7, or a value for an input. What it does then is crate `progress`, the
// whole file crate `reader`.
#![tactic(auto)]

pub mod entries; // what a record says

use farm::{Given, Label, Refusal};
use inputs::Kind;

// A record's label and what it says.
#[derive(Clone, Copy, Debug, PartialEq, Eq)]
pub struct Entry {
    pub label: Label,
    pub read: Result<(Kind, usize, Given), Refusal>,
}
