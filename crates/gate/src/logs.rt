// The whole log: 1 before all, then records from the front, and 14 for one that ends before 31 December.
ghost use Rattle.std.specs.Prelude.{◌≡◌, ◌≤◌, length};
ghost use Rattle.grammar.specs.Reading.{reading_of};
ghost use Rattle.outdoors.specs.Tallies.{Roomy};
ghost use Rattle.gate.specs.Logs.{taken_by, nothing_read, finished, read_from, log_most, read_log};

use crate::{LOG_MOST, LogAnswer, Progress};
use base::refusals::Refused;
use calendar::Due;
use csv_reader::{ReaderPlace, Step};
use gate_days::{LogRefusal, days};
use outdoors::{Day, Tally, tallies};

// What a record does: it takes reading further, or something is wrong with it.
#[tactic(auto, using(crate::proofs::LogSteps::taken_steps))]
fn take_day(p: Progress, read: Result<Day, LogRefusal>) -> Result<Progress, LogRefusal>
    requires { Roomy p.tally }
    ensures { result ≡ taken_by p read }
{
    let day = read?;
    if !calendar::is_due(p.due, day.date) {
        return Err(LogRefusal::WrongDate);
    }
    Ok(Progress {
        due: calendar::due_after(day.date),
        tally: tallies::with_day(p.tally, day),
    })
}

// Read through: what the days come to, or 14 where 31 December was not reached.
#[tactic(auto, using(crate::proofs::LogSteps::finished_steps))]
fn finished(p: Progress) -> LogAnswer
    ensures { result ≡ finished p }
{
    match p.due {
        Due::NewYear | Due::On(_) => Err(Refused(LogRefusal::WrongDate, 0)),
        Due::Nothing => Ok(tallies::outdoors(p.tally)),
    }
}

fn nothing_read() -> Progress
    ensures { result ≡ nothing_read }
{
    Progress {
        due: Due::NewYear,
        tally: Tally {
            grazing_days: 0,
            yard_days: 0,
            pasture: 0,
        },
    }
}

// The records from the front.
#[tactic(auto, using(crate::proofs::LogSteps::log_steps))]
fn read_records(s: &[u8]) -> LogAnswer
    requires { length s.now ≤ log_most }
    ensures { result ≡ read_from 1 nothing_read (reading_of s.now) }
{
    let mut place = ReaderPlace::front();
    let mut p = nothing_read();
    let mut number: usize = 1;
    // No `for`: the place of a record comes from the one before it.
    loop {
        match place.next(s) {
            Step::End => return finished(p),
            Step::Broken => return Err(Refused(LogRefusal::RecordBroken, number)),
            Step::Record(f, next) => {
                p = match take_day(p, days::day_of(s, f)) {
                    Ok(further) => further,
                    Err(refusal) => return Err(Refused(refusal, number)),
                };
                place = next;
                number += 1;
            }
        }
    }
}

// What a log comes to, or the first refusal that applies.
#[tactic(auto, using(base::proofs::Picks::picks), unfolding(crate::specs::Logs::read_log))]
pub fn read(s: &[u8]) -> LogAnswer
    ensures { result ≡ read_log s.now }
{
    if LOG_MOST < s.len() {
        return Err(Refused(LogRefusal::LogTooLong, 0));
    }
    read_records(s)
}
