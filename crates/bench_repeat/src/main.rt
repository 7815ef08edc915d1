// The library's work, repeated inside one process, so that a benchmark can measure it. Standard input has a mode, a
// letter for where the file comes from, how often in eight digits, and a farm file. The mode is w for the whole job, as
// the program does it, r for reading alone, l for what comes after reading: figures and listing, n for no more than
// whether the farm is above a line of 0 grams, once it is read and checked; a, p, m for one step on the opened farm, to
// add, replace or remove a herd, in capitals for the step through a lent array, and k for the checks that a step begins
// with. The letter is c for a cooperative, else the file counts as one on standard input. One checksum is printed.
#![tactic(auto)]

mod checksum; // the checksum of the answers
mod steps; // steps on a farm with its totals

ghost use Rattle.std.specs.Prelude.{◌≡◌, ◌≤◌, length};
ghost use Rattle.checks.specs.Checks.{check_farm};
ghost use Rattle.limits.specs.declared.Source.TheVariants.{Cooperative};
ghost use Rattle.listing_room.specs.Bounds.{farm_room};
ghost use Rattle.views.specs.Rooms.{output_room};
ghost use Rattle.farm.specs.Answers.{Accepted};

use above_line::Above;
use base::refusals::Refused;
use books::Step;
use farm::{Farm, Given, Refusal};
use limits::Source;
use std::io::Read;
use views::View;

// The mode, the letter, and how often.
const HEAD: usize = 10;

// They, and one byte more than a cooperative's file may have.
const INPUT_MOST: usize = HEAD + limits::COOPERATIVE_BYTES + 1;

// A herd of any kind has this many slots in use.
const SLOTS_LEAST: u64 = 4;

#[derive(Clone, Copy)]
enum Mode {
    Whole,
    Reading,
    Listing,
    Line,
    Step(Step),
    LentStep(Step),
    Checks,
}

fn with_digit(n: u64, b: u8) -> u64 {
    n % 10000000 * 10 + u64::from(b) % 48
}

fn times_of(digits: &[u8]) -> u64 {
    digits.iter().fold(0, |n, b| with_digit(n, *b))
}

fn mode_of(s: &[u8]) -> Mode {
    match s {
        b"r" => Mode::Reading,
        b"l" => Mode::Listing,
        b"n" => Mode::Line,
        b"a" => Mode::Step(Step::Add),
        b"p" => Mode::Step(Step::Replace),
        b"m" => Mode::Step(Step::Remove),
        b"A" => Mode::LentStep(Step::Add),
        b"P" => Mode::LentStep(Step::Replace),
        b"M" => Mode::LentStep(Step::Remove),
        b"k" => Mode::Checks,
        _ => Mode::Whole,
    }
}

fn source_of(letter: &[u8]) -> Source {
    match letter {
        b"c" => Source::Cooperative,
        _ => Source::StandardInput,
    }
}

fn given_number(given: Given) -> u64 {
    match given {
        Given::Missing => 0,
        Given::Standard => 1,
        Given::Value(v) => u64::from(v),
        Given::Signed(v) => u64::from(v.unsigned_abs()),
    }
}

// Of a farm the number of herds, and of one herd the label's length and a value.
fn farm_sum(sum: u64, turn: u64, farm: Farm) -> u64 {
    let counted = checksum::mixed(sum, farm.count as u64);
    if farm.count == 0 {
        return counted;
    }
    let i = turn as usize % farm.count;
    if farm::HERDS_MOST <= i {
        return counted;
    }
    let h = farm.herds[i];
    let slot = h.slots[(turn % SLOTS_LEAST) as usize];
    checksum::mixed(
        checksum::mixed(counted, h.label.len as u64),
        given_number(slot.given),
    )
}

// Of a text its length and a byte.
fn text_sum(sum: u64, turn: u64, out: &[u8], n: usize) -> u64 {
    let counted = checksum::mixed(sum, n as u64);
    if n == 0 {
        return counted;
    }
    let i = turn as usize % n;
    if out.len() <= i {
        return counted;
    }
    checksum::mixed(counted, u64::from(out[i]))
}

// One turn of reading, of the whole job, and of what comes after reading.
fn read_sum(sum: u64, turn: u64, source: Source, file: &[u8]) -> u64 {
    let answer = farm_file::read(source, file);
    match answer.checked {
        Ok(()) => farm_sum(sum, turn, answer.farm),
        Err(Refused(refusal, record)) => checksum::refusal_sum(sum, refusal, record),
    }
}

fn whole_sum(sum: u64, turn: u64, source: Source, file: &[u8], out: &mut [u8]) -> u64 {
    match calls::file_view(View::Figures, source, file, out) {
        Ok(n) => text_sum(sum, turn, out, n),
        Err(Refused(refusal, record)) => checksum::refusal_sum(sum, refusal, record),
    }
}

fn listing_sum(sum: u64, turn: u64, farm: Farm, out: &mut [u8]) -> u64
    requires { (check_farm farm ≡ Accepted) × (farm_room farm.count ≤ length out.old) }
{
    let n = lines_figures::put_farm(out, farm);
    text_sum(sum, turn, out, n)
}

fn line_sum(sum: u64, farm: Farm) -> u64
    requires { check_farm farm ≡ Accepted }
{
    match farm_above::above(farm, 0) {
        Above::Yes(count) | Above::No(count) => checksum::mixed(sum, count as u64),
    }
}

// The turns count down.
fn repeat_reading(times: u64, source: Source, file: &[u8]) -> u64 {
    let mut sum = 0;
    for turn in (1..=times).rev() {
        sum = read_sum(sum, turn, source, file);
    }
    sum
}

fn repeat_whole(times: u64, source: Source, file: &[u8], out: &mut [u8]) -> u64 {
    let mut sum = 0;
    for turn in (1..=times).rev() {
        sum = whole_sum(sum, turn, source, file, out);
    }
    sum
}

fn repeat_listing(times: u64, farm: Farm, out: &mut [u8]) -> u64
    requires { (check_farm farm ≡ Accepted) × (farm_room farm.count ≤ length out.old) }
{
    let mut sum = 0;
    for turn in (1..=times).rev() {
        sum = listing_sum(sum, turn, farm, out);
    }
    sum
}

fn repeat_line(times: u64, farm: Farm) -> u64
    requires { check_farm farm ≡ Accepted }
{
    let mut sum = 0;
    for _ in 0..times {
        sum = line_sum(sum, farm);
    }
    sum
}

// The farm is read once.
fn listed(times: u64, source: Source, file: &[u8], out: &mut [u8]) -> u64
    requires { output_room Cooperative ≤ length out.old }
{
    let answer = farm_file::read(source, file);
    match answer.checked {
        Ok(()) => repeat_listing(times, answer.farm, out),
        Err(Refused(refusal, record)) => checksum::refusal_sum(0, refusal, record),
    }
}

fn screened(times: u64, source: Source, file: &[u8]) -> u64 {
    let answer = farm_file::read(source, file);
    match answer.checked {
        Ok(()) => repeat_line(times, answer.farm),
        Err(Refused(refusal, record)) => checksum::refusal_sum(0, refusal, record),
    }
}

fn repeated(mode: Mode, times: u64, source: Source, file: &[u8]) -> u64 {
    let mut out: [u8; calls::COOPERATIVE_VIEW_ROOM] = base::room();
    match mode {
        Mode::Whole => repeat_whole(times, source, file, &mut out),
        Mode::Reading => repeat_reading(times, source, file),
        Mode::Listing => listed(times, source, file, &mut out),
        Mode::Line => screened(times, source, file),
        Mode::Step(step) => steps::by_value(times, source, file, step),
        Mode::LentStep(step) => steps::lent(times, source, file, step),
        Mode::Checks => steps::checks_alone(times, source, file),
    }
}

// Reads until the buffer is full, the input ends or a read fails: how many bytes it now has.
fn read_full(reader: &mut impl Read, into: &mut [u8]) -> usize
    ensures { result ≤ length into.new }
{
    let mut done = 0;
    while done < into.len() {
        let n = reader.read(&mut into[done..]).unwrap_or(0);
        if n == 0 {
            return done;
        }
        done += n;
    }
    done
}

fn main(rt: HostRuntime) {
    let mut input: [u8; INPUT_MOST] = base::room();
    let n = read_full(&mut rt.reader(), &mut input);
    let mode = mode_of(base::part_of(&input, 0, 1));
    let source = source_of(base::part_of(&input, 1, 2));
    let times = times_of(base::part_of(&input, 2, HEAD));
    let sum = repeated(mode, times, source, base::part_of(&input, HEAD, n));
    let _ = println!(rt; "{sum}");
}
