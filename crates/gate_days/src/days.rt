// What a record says of its day by itself: refusals 3 and 7, and 14 where the date can't be read.
ghost use Rattle.std.specs.Prelude.{◌≡◌};
ghost use Rattle.csv_reader.specs.Places.{parts_at};
ghost use Rattle.gate_days.specs.Days.{hours_of, day_of};

use crate::{HOURS_MOST, LogRefusal};
use csv_reader::Fields;
use outdoors::Day;

const FIELDS: usize = 3;

const DECIMALS: usize = 1;

// A day's hours on pasture and on the yard, where they fit a day.
#[tactic(auto, using(crate::proofs::DaySteps::hours_steps))]
fn hours_of(s: &[u8], f: Fields) -> Option<(u8, u8)>
    ensures { result ≡ hours_of (parts_at s.now f) }
{
    let Some(pasture) = numbers::read_number(csv_reader::field(s, f.second), DECIMALS, HOURS_MOST)
    else {
        return None;
    };
    let Some(yard) = numbers::read_number(csv_reader::field(s, f.third), DECIMALS, HOURS_MOST)
    else {
        return None;
    };
    if HOURS_MOST < pasture + yard {
        return None;
    }
    Some((pasture as u8, yard as u8))
}

// What a record says by itself: its day, or what is wrong with it.
#[tactic(auto, using(crate::proofs::DaySteps::day_steps))]
pub fn day_of(s: &[u8], f: Fields) -> Result<Day, LogRefusal>
    ensures { result ≡ day_of (parts_at s.now f) }
{
    if f.count != FIELDS {
        return Err(LogRefusal::NotThreeFields);
    }
    let (pasture, yard) = hours_of(s, f).ok_or(LogRefusal::BadHours)?;
    let date = dates::read_date(csv_reader::field(s, f.first)).ok_or(LogRefusal::WrongDate)?;
    Ok(Day {
        date,
        pasture,
        yard,
    })
}
