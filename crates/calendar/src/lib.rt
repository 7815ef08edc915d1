// Dates of the Gregorian calendar: leap years, the days of a month, and the dates of one year as they come, from 1
// January to 31 December.
#![tactic(auto)]

ghost use Rattle.std.specs.Prelude.{◌≡◌};
ghost use Rattle.calendar.specs.Calendar.{is_leap, days_in, same_day, same_date, is_leap_day};
ghost use Rattle.calendar.specs.Following.{is_due, due_after};

#[derive(Clone, Copy, Debug, PartialEq, Eq)]
pub struct Date {
    pub year: u32,
    pub month: u32,
    pub day: u32,
}

// Which date may come next: 1 January of any year, this one, or none any more. Three cases, so no Option.
#[derive(Clone, Copy, Debug, PartialEq, Eq)]
pub enum Due {
    NewYear,
    On(Date),
    Nothing,
}

const JANUARY: u32 = 1;

const FEBRUARY: u32 = 2;

const DECEMBER: u32 = 12;

// The last day of February in a leap year.
const LEAP_DAY: u32 = 29;

// The days of a common year's months, by their numbers; there is no month 0.
const DAYS: [u32; 13] = [0, 31, 28, 31, 30, 31, 30, 31, 31, 30, 31, 30, 31];

#[tactic(auto, using(base::proofs::Picks::picks), unfolding(crate::specs::Calendar::is_leap))]
pub fn is_leap(year: u32) -> bool
    ensures { result ≡ is_leap year }
{
    year % 400 == 0 || year % 100 != 0 && year % 4 == 0
}

// How many days February has.
#[tactic(auto, using(crate::proofs::MonthSteps::month_steps))]
fn days_in_february(year: u32) -> u32
    ensures { result ≡ days_in year 2 }
{
    if is_leap(year) {
        LEAP_DAY
    } else {
        LEAP_DAY - 1
    }
}

// How many days a month has.
#[tactic(auto, using(crate::proofs::MonthSteps::month_steps))]
pub fn days_in(year: u32, month: u32) -> u32
    ensures { result ≡ days_in year month }
{
    if month == FEBRUARY {
        days_in_february(year)
    } else {
        DAYS.get(month as usize).copied().unwrap_or(0)
    }
}

// Is it this day of this month, in any year?
fn same_day(month: u32, day: u32, d: Date) -> bool
    ensures { result ≡ same_day month day d }
{
    d.month == month && d.day == day
}

pub fn same_date(a: Date, b: Date) -> bool
    ensures { result ≡ same_date a b }
{
    a == b
}

// Is it a 29 February?
pub fn is_leap_day(d: Date) -> bool
    ensures { result ≡ is_leap_day d }
{
    same_day(FEBRUARY, LEAP_DAY, d)
}

pub fn is_due(due: Due, d: Date) -> bool
    ensures { result ≡ is_due due d }
{
    match due {
        Due::NewYear => same_day(JANUARY, 1, d),
        Due::On(e) => same_date(e, d),
        Due::Nothing => false,
    }
}

// What is due past a date of the year.
#[tactic(auto, using(crate::proofs::MonthSteps::due_steps))]
pub fn due_after(d: Date) -> Due
    ensures { result ≡ due_after d }
{
    if d.day < days_in(d.year, d.month) {
        Due::On(Date {
            day: d.day + 1,
            ..d
        })
    } else if d.month < DECEMBER {
        Due::On(Date {
            month: d.month + 1,
            day: 1,
            ..d
        })
    } else {
        Due::Nothing
    }
}
