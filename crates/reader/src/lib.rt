// The records of a farm file become the farm that they say, or exactly one refusal with its record number: the first of
// 2 to 12 that applies in 01's order. One pass over the bytes; nothing of the file is copied but labels. How long a
// file may be, 1, is crate `farm_file`.
#![tactic(auto)]

pub mod files; // the records from the front, each by crates `places` and `next_herd`; then 12

use farm::{Checked, Farm};

// What a file gives: its farm, or the refusal and a farm of no herds.
#[derive(Clone, Copy)]
pub struct FileAnswer {
    pub checked: Checked,
    pub farm: Farm,
}
