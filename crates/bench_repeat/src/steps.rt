// Steps on a farm with its totals (02, W11), repeated. The file is opened once, of a refused file a farm of no herds,
// and every turn takes the same step on that farm, by value or through a lent array. The checks of the farm's record,
// which each step begins with, are repeated by themselves too, so that a step's own cost is what is over.
use crate::checksum;
use base::refusals::Refused;
use books::{Book, Decided, Step};
use farm::{Farm, HERDS_MOST, Herd, herds, labels};
use limits::Source;
use outputs::{Totals, total_names};
use step_answer::files;

// ---- the herd that a step is handed

fn herd_at(farm: Farm, place: usize) -> Herd {
    if HERDS_MOST <= place {
        herds::no_herd()
    } else {
        farm.herds[place]
    }
}

// The herd under a label that no herd of the files has.
fn renamed(h: Herd) -> Herd {
    let mut herd = h;
    herd.label = labels::label_of(b"new");
    herd
}

// What takes longest: a herd is added whose label no other has, the last is replaced, whose label is found behind all
// others, and the first is taken out, so that all others move up.
fn handed(farm: Farm, step: Step) -> Herd {
    match step {
        Step::Add => renamed(herd_at(farm, 0)),
        Step::Replace => herd_at(farm, farm.count.saturating_sub(1)),
        Step::Remove => herd_at(farm, 0),
    }
}

// ---- a turn

fn decided_number(decided: Decided) -> u64 {
    match decided {
        Ok(()) => 0,
        Err(refusal) => books::numbers::number_of(refusal),
    }
}

// Of a step what was decided, the number of herds, and a total.
fn step_sum(sum: u64, turn: u64, decided: Decided, count: usize, totals: Totals) -> u64 {
    let counted = checksum::mixed(checksum::mixed(sum, decided_number(decided)), count as u64);
    let grams = totals.grams[turn as usize % total_names::COUNT];
    checksum::mixed(counted, cut_division::magnitude(grams))
}

fn value_sum(sum: u64, turn: u64, farm: Farm, totals: Totals, step: Step, h: Herd) -> u64 {
    let after = book_steps::step(farm, HERDS_MOST, totals, step, h);
    step_sum(sum, turn, after.decided, after.farm.count, after.totals)
}

fn lent_sum(
    sum: u64,
    turn: u64,
    herds: [Herd; HERDS_MOST],
    book: Book,
    step: Step,
    h: Herd,
) -> u64 {
    let answer = test_books::step_through(herds, book, step, h).answer;
    step_sum(
        sum,
        turn,
        answer.decided,
        answer.book.count,
        answer.book.totals,
    )
}

fn check_sum(sum: u64, farm: Farm) -> u64 {
    match checks::check_farm(farm) {
        Ok(()) => checksum::mixed(sum, farm.count as u64),
        Err(Refused(refusal, record)) => checksum::refusal_sum(sum, refusal, record),
    }
}

// ---- the turns count down

fn repeat_value(times: u64, farm: Farm, totals: Totals, step: Step, h: Herd) -> u64 {
    let mut sum = 0;
    for turn in (1..=times).rev() {
        sum = value_sum(sum, turn, farm, totals, step, h);
    }
    sum
}

fn repeat_lent(times: u64, herds: [Herd; HERDS_MOST], book: Book, step: Step, h: Herd) -> u64 {
    let mut sum = 0;
    for turn in (1..=times).rev() {
        sum = lent_sum(sum, turn, herds, book, step, h);
    }
    sum
}

fn repeat_checks(times: u64, farm: Farm) -> u64 {
    let mut sum = 0;
    for _ in 0..times {
        sum = check_sum(sum, farm);
    }
    sum
}

// ---- the farm is opened once

pub fn by_value(times: u64, source: Source, file: &[u8], step: Step) -> u64 {
    let opened = files::open(source, file);
    let h = handed(opened.farm, step);
    repeat_value(times, opened.farm, opened.totals, step, h)
}

pub fn lent(times: u64, source: Source, file: &[u8], step: Step) -> u64 {
    let opened = files::open(source, file);
    let h = handed(opened.farm, step);
    let book = Book {
        count: opened.farm.count,
        totals: opened.totals,
    };
    repeat_lent(times, opened.farm.herds, book, step, h)
}

pub fn checks_alone(times: u64, source: Source, file: &[u8]) -> u64 {
    repeat_checks(times, files::open(source, file).farm)
}
