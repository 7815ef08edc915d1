// 02, W2: what is told of why a yard has its share on days with both yard and pasture: the first of four reasons whose
// fact holds in the herd's record, the number of such days, and the shares. The definitions in specs/ say which, and
// crate `herd_reasons` finds it.
#![tactic(auto)]

use farm::Answer;

// In 02's order.
#[derive(Clone, Copy, Debug, PartialEq, Eq)]
pub enum Reason {
    NoSuchDays,
    NotAvailable,
    AsChosen,
    Lowered,
}

// The reason, the number of days with both, and the yard's shares in tenths: as chosen, and on those days.
#[derive(Clone, Copy, Debug, PartialEq, Eq)]
pub struct Why {
    pub reason: Reason,
    pub days: u64,
    pub chosen: u64,
    pub share: u64,
}

// The answer of a herd's record; of a file that has no such herd, no reason.
pub type ReasonAnswer = Answer<Option<Why>>;
