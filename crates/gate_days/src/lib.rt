// What a record of a gate's log says of its day by itself, and the refusals of a log (02, W10).
#![tactic(auto)]

pub mod faults; // the refusals' numbers
pub mod days; // what a record says of its day

// 24 hours, in tenths.
pub const HOURS_MOST: u32 = 240;

// What can be wrong with a log.
#[derive(Clone, Copy, Debug, PartialEq, Eq)]
pub enum LogRefusal {
    LogTooLong,
    RecordBroken,
    NotThreeFields,
    BadHours,
    WrongDate,
}
