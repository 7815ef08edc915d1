// What the days of a gate's log come to (02, W10).
#![tactic(auto)]

pub mod tallies; // days counted, and what comes of them

use calendar::Date;

// A day of the log: its date, and the tenths of an hour on pasture and on the yard.
#[derive(Clone, Copy, Debug, PartialEq, Eq)]
pub struct Day {
    pub date: Date,
    pub pasture: u8,
    pub yard: u8,
}

// What the days so far come to: those with hours on pasture, those with hours on the yard, and the tenths of an hour
// on pasture.
#[derive(Clone, Copy, Debug, PartialEq, Eq)]
pub struct Tally {
    pub grazing_days: u32,
    pub yard_days: u32,
    pub pasture: u32,
}

// What a log comes to, as a farm file's inputs: days, days, and tenths of an hour.
#[derive(Clone, Copy, Debug, PartialEq, Eq)]
pub struct Outdoors {
    pub grazing_days: u32,
    pub yard_days: u32,
    pub grazing_hours: u32,
}
