// Records that are handed in, good and bad, which a farm file does not reach: 01's refusals in their order, always with
// record 0, and 13 only after them. Standard input is a script with a line for each case, and each line's answers are
// printed below it. The expected output is worked out from 01.
#![tactic(auto)]

mod script; // what a line says
mod case_records; // a good record, and records changed in one place
mod call_answers; // what the calls answer

use printing::tell;
use script::Change;

// H: a herd with two changes, by itself and alone on a farm.
fn herd_case(rt: &impl Print, change: Change, other: Change) {
    let h = case_records::changed(case_records::changed(case_records::pigs(), change), other);
    call_answers::of_herd(rt, h);
    call_answers::of_farm(rt, case_records::farm_of(h, h, 1));
}

// F: so many herds with one change, but for the second, which has another.
fn farm_case(rt: &impl Print, change: Change, other: Change, count: usize) {
    let first = case_records::changed(case_records::pigs(), change);
    let second = case_records::changed(case_records::pigs(), other);
    call_answers::of_farm(rt, case_records::farm_of(first, second, count));
}

// S: the same in an array that is shorter than a farm may be; the totals alone.
fn few_case(rt: &impl Print, change: Change, other: Change, count: usize) {
    let first = case_records::changed(case_records::pigs(), change);
    let second = case_records::changed(case_records::pigs(), other);
    call_answers::of_few(rt, case_records::few_of(first, second), count);
}

fn run(rt: &impl Print, line: &[u8; script::LINE]) {
    let change = script::change_at(line, script::FIRST);
    let other = script::change_at(line, script::SECOND);
    let count = script::number_at(line, script::NUMBER) as usize;
    tell::line(rt, base::part_of(line, 0, script::TEXT));
    match line[0] {
        b'H' => herd_case(rt, change, other),
        b'F' => farm_case(rt, change, other, count),
        b'S' => few_case(rt, change, other, count),
        _ => farm_case(rt, change, other, usize::MAX),
    }
}

fn main(rt: HostRuntime) {
    let mut line = [0u8; script::LINE];
    for _ in 0..u64::MAX {
        if !script::read_line(&rt, &mut line) {
            return;
        }
        run(&rt, &line);
    }
}
