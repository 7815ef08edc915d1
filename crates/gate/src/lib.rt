// The log of a pasture gate, a record a day, through one calendar year, becomes a farm file's grazing days, yard days
// and grazing hours; or exactly one refusal with its record number, the first that applies in the order of 02's W10.
#![tactic(auto)]

pub mod logs; // the log read through

use base::refusals::Refused;
use calendar::Due;
use gate_days::LogRefusal;
use outdoors::{Outdoors, Tally};

// At most so many bytes.
pub const LOG_MOST: usize = 65536;

// How far a log is read: which date is due, and what the days so far come to.
#[derive(Clone, Copy, Debug, PartialEq, Eq)]
pub struct Progress {
    pub due: Due,
    pub tally: Tally,
}

// What a log is answered with.
pub type LogAnswer = Result<Outdoors, Refused<LogRefusal>>;
