// The command `edit` (02, W11): a farm is opened with its totals, and step after step is taken, each said by a word of
// the command line and the one behind it. After a step the totals' listing is printed, or the refusal's line; or after
// the last one the farm's file and nothing else. A refused step is told in words, and the next ones go on.
#![tactic(auto)]

mod handed; // the herd that a step is handed
mod kept; // the edited farm's file

use crate::handed::Handed;
use base::refusals::Refused;
use books::{Decided, Step};
use console::{Ended, Surroundings, messages};
use farm::{Checked, Farm, Herd, Refusal, herds};
use limits::Source;
use outputs::Totals;
use refused_input::FarmInput;
use streams::Outcome;

// By which limits the files of a run are read, and whether only the farm's file is printed, after the last step.
#[derive(Clone, Copy)]
pub struct Manner {
    pub source: Source,
    pub only_farm: bool,
}

// A farm with its totals, and how the run has ended so far.
#[derive(Clone, Copy)]
pub struct Edited {
    pub farm: Farm,
    pub totals: Totals,
    pub ended: Ended,
}

// ---- the farm's file

// The line of a refused file's refusal, and what there is to say of it.
fn print_refused(
    rt: &impl Surroundings,
    file: FarmInput<'_>,
    refusal: Refusal,
    record: usize,
) -> Ended {
    match printing::print_refusal(rt, refusal, record) {
        Ok(_) => refused_input::of_farm(rt, file, refusal, record),
        Err(error) => messages::unwritten(rt, error),
    }
}

fn end_opening(rt: &impl Surroundings, checked: Checked, file: FarmInput<'_>) -> Ended {
    match checked {
        Ok(()) => Ended::Printed,
        Err(Refused(refusal, record)) => print_refused(rt, file, refusal, record),
    }
}

// The farm that a file says, with its totals; of a refused file no farm, and that is printed and said.
pub fn open(rt: &impl Surroundings, file: FarmInput<'_>) -> Edited {
    let opened = step_answer::files::open(file.source, file.bytes);
    Edited {
        farm: opened.farm,
        totals: opened.totals,
        ended: end_opening(rt, opened.checked, file),
    }
}

// No farm, where none could be read.
pub fn none(ended: Ended) -> Edited {
    let farm = herds::no_farm();
    Edited {
        farm,
        totals: answers::farm_answer(farm).totals,
        ended,
    }
}

// ---- a step

// A step that was printed: where it was refused, that is said of the word at `at` and the one behind it.
fn end_step(
    rt: &impl Surroundings,
    before: Ended,
    decided: Decided,
    source: Source,
    at: usize,
) -> Ended {
    match decided {
        Ok(()) => before,
        Err(refusal) => {
            messages::step_refused(rt, source, at, books::numbers::number_of(refusal))
        }
    }
}

// What a step is answered with, unless only the farm's file is printed.
fn print_answer(rt: &impl Surroundings, only_farm: bool, answer: &[u8]) -> Outcome {
    if only_farm {
        Ok(0)
    } else {
        streams::write_all(rt, answer)
    }
}

// The step with this herd. The farm is changed where it stands: each copy that is handed over takes 53 KB of stack.
fn take(
    rt: &impl Surroundings,
    edited: &mut Edited,
    manner: Manner,
    step: Step,
    h: Herd,
    at: usize,
) {
    let room = limits::limits_of(manner.source).herds;
    let taken = step_answer::take(edited.farm, room, edited.totals, step, h);
    edited.ended = match print_answer(
        rt,
        manner.only_farm,
        base::part_of(&taken.bytes, 0, taken.length),
    ) {
        Ok(_) => end_step(rt, edited.ended, taken.decided, manner.source, at),
        Err(error) => messages::unwritten(rt, error),
    };
    edited.farm = taken.farm;
    edited.totals = taken.totals;
}

// The step that the word at `at` says, with the herd that the one behind it hands over. Where there is none, the farm
// stays the same.
fn take_handed(
    rt: &impl Surroundings,
    edited: &mut Edited,
    manner: Manner,
    step: Step,
    handed: Handed,
    at: usize,
) {
    match handed.ended {
        Ended::Printed => take(rt, edited, manner, step, handed.herd, at),
        ended => edited.ended = ended,
    }
}

fn take_at(rt: &impl Surroundings, edited: &mut Edited, manner: Manner, at: usize) {
    let behind = asked::after(at);
    if asked::is_word(rt, at, asked::ADD) {
        let handed = handed::by_file(rt, manner, behind);
        take_handed(rt, edited, manner, Step::Add, handed, at)
    } else if asked::is_word(rt, at, asked::REPLACE) {
        let handed = handed::by_file(rt, manner, behind);
        take_handed(rt, edited, manner, Step::Replace, handed, at)
    } else {
        let handed = handed::by_label(rt, behind);
        take_handed(rt, edited, manner, Step::Remove, handed, at)
    }
}

// ---- all of them

// The steps that the words from `first` on say, two by two, to the last or until one fails.
fn take_all(rt: &impl Surroundings, edited: &mut Edited, manner: Manner, first: usize) {
    let mut at = first;
    for _ in 0..asked::count_from(rt, first) / 2 {
        if edited.ended == Ended::Failed {
            return;
        }
        take_at(rt, edited, manner, at);
        at = asked::after(asked::after(at));
    }
}

// What is printed after the last step, unless one failed: the farm's file, or nothing more.
fn end_steps(rt: &impl Surroundings, edited: &Edited, manner: Manner) -> Ended {
    if manner.only_farm && edited.ended != Ended::Failed {
        kept::print_farm(rt, edited.farm, manner.source, edited.ended)
    } else {
        edited.ended
    }
}

// The steps of a farm that was opened; one that was not is not edited.
pub fn run(rt: &impl Surroundings, opened: Edited, manner: Manner, first: usize) -> Ended {
    match opened.ended {
        Ended::Printed => {
            let mut edited = opened;
            take_all(rt, &mut edited, manner, first);
            end_steps(rt, &edited, manner)
        }
        ended => ended,
    }
}
