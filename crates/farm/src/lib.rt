// The farm as a record: labelled herds, of which any input may be missing; and 01's refusals, of files and of records.
// Knows nothing of how a file is read, and nothing of formulas.
#![tactic(auto)]

use base::refusals::Refused;
use inputs::Kind;

pub mod labels; // when a label is good, and when two are one
pub mod prints; // a number that labels share which are one
pub mod herds; // herds and farms that say nothing

// How many bytes a label, how many slots a herd and how many herds a farm has room for.
pub const LABEL_MOST: usize = 16;

pub const SLOTS: usize = 9;

pub const HERDS_MOST: usize = 512;

// The bytes in use are the first `len`. No heap is a rule here, so no String.
#[derive(Clone, Copy, Debug, PartialEq, Eq)]
pub struct Label {
    pub bytes: [u8; LABEL_MOST],
    pub len: usize,
}

// What a record says of an input: nothing, `standard`, a number in units of its last decimal or the place of a name in
// its list, or a whole number that may be below zero.
#[derive(Clone, Copy, Debug, PartialEq, Eq)]
pub enum Given {
    Missing,
    Standard,
    Value(u32),
    Signed(i32),
}

#[derive(Clone, Copy, Debug, PartialEq, Eq)]
pub struct Slot {
    pub given: Given,
}

// A slot for each input of the kind, in the order of 01's list; slots behind them say nothing.
#[derive(Clone, Copy, Debug, PartialEq, Eq)]
pub struct Herd {
    pub label: Label,
    pub kind: Kind,
    pub slots: [Slot; SLOTS],
}

// The herds are the first `count`. No heap is a rule here, so no Vec; nor `==`, which would compare all 512.
#[derive(Clone, Copy)]
pub struct Farm {
    pub herds: [Herd; HERDS_MOST],
    pub count: usize,
}

// What is wrong: 01's refusals, in its order.
#[derive(Clone, Copy, Debug, PartialEq, Eq)]
pub enum Refusal {
    FileTooLong,
    RecordBroken,
    NotFourFields,
    BadLabel,
    NotInTheList,
    StandardForbidden,
    BadValue,
    EarlierLabel,
    NoRoomForHerd,
    OtherKind,
    GivenAlready,
    InputMissing,
    BufferTooShort,
}

// What is asked for, or a refusal and its record.
pub type Answer<T> = Result<T, Refused<Refusal>>;

// What a check finds: nothing, or a refusal.
pub type Checked = Answer<()>;
