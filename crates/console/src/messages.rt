// What is said on standard error, a whole line or two at a time. Where that is closed or full, there is nobody to tell.
// The pages of help; and the digit of the status.
use crate::{Ended, Surroundings, descriptors};
use limits::Source;
use message_lines::Line;
use std::io::Error;
use streams::telling;

// What is wrong with the command line, and where to read on.
pub fn misused(rt: &impl Surroundings, what: &[u8], word: usize) -> Ended {
    let mut line = Line::new();
    line.add(b"urvendlo: ");
    line.add_both(rt, what, word);
    line.add(b"\nurvendlo: `urvendlo help` tells more\n");
    rt.tell(line.said());
    Ended::Failed
}

// A file that is refused with a number and a record, by the limits of where it comes from.
pub fn refused(rt: &impl Surroundings, source: Source, name: usize, number: u64, record: usize) {
    let mut line = Line::new();
    line.add(b"urvendlo: ");
    line.add_name(rt, name);
    line.add(b": ");
    line.add_record(record);
    line.add_refusal(source, number);
    rt.tell(line.said());
}

// A step that is refused: what the word at `at` and the one behind it say.
pub fn step_refused(rt: &impl Surroundings, source: Source, at: usize, number: u64) -> Ended {
    let mut line = Line::new();
    line.add_both(rt, b"urvendlo: ", at);
    line.add_both(rt, b" ", asked::after(at));
    line.add(b": ");
    line.add_refusal(source, number);
    rt.tell(line.said());
    Ended::Refused
}

// An edited farm whose file is refused.
pub fn edited_refused(rt: &impl Surroundings, source: Source, number: u64) -> Ended {
    let mut line = Line::new();
    line.add(b"urvendlo: the edited farm: ");
    line.add_refusal(source, number);
    rt.tell(line.said());
    Ended::Refused
}

// A file that a step takes its herd from, and that has not one.
pub fn not_one_herd(rt: &impl Surroundings, name: usize, count: usize) -> Ended {
    let mut line = Line::new();
    line.add_both(rt, b"urvendlo: ", name);
    line.add(b": it has ");
    line.add_herds(count);
    line.add(b", and a step takes a file of one herd\n");
    rt.tell(line.said());
    Ended::Failed
}

// That the option --cooperative takes larger files.
pub fn larger(rt: &impl Surroundings) {
    let mut line = Line::new();
    line.add(b"urvendlo: ");
    line.add(&texts::LARGER);
    line.add(b"\n");
    rt.tell(line.said());
}

// That mending would make so many changes, and the command to try.
pub fn hinted(rt: &impl Surroundings, name: usize, changes: usize) {
    let mut line = Line::new();
    line.add(b"urvendlo: mending would change the file in ");
    line.add_places(changes);
    line.add(b"; to try it: urvendlo mend ");
    line.add_source(rt, name);
    line.add(b" > MENDED\n");
    rt.tell(line.said());
}

// Whether a farm is above a line of so many grams, and how many herds were added up to tell.
pub fn screened(rt: &impl Surroundings, name: usize, is_above: bool, grams: u64, count: usize) {
    let mut line = Line::new();
    line.add(b"urvendlo: ");
    line.add_name(rt, name);
    line.add(b": ");
    line.add_above(is_above, grams);
    line.add_herds(count);
    line.add(b" added up\n");
    rt.tell(line.said());
}

pub fn unread(rt: &impl Surroundings, error: Option<Error>) -> Ended {
    telling::fail(rt, b"urvendlo: the input cannot be read", error);
    Ended::Failed
}

pub fn unwritten(rt: &impl Surroundings, error: Option<Error>) -> Ended {
    telling::fail(rt, b"urvendlo: the output cannot be written", error);
    Ended::Failed
}

// A page of help, on standard output.
pub fn help(rt: &impl Surroundings, page: usize) -> Ended {
    let pages = texts::PAGES;
    let starts = texts::PAGES_STARTS;
    if texts::PAGE_LAST < page {
        return Ended::Failed;
    }
    match streams::write_all(rt, base::part_of(&pages, starts[page], starts[page + 1])) {
        Ok(_) => Ended::Printed,
        Err(error) => unwritten(rt, error),
    }
}

// The digit, to the descriptor that was asked for.
pub fn tell_status(rt: &impl Surroundings, fd: i32, ended: Ended) {
    let digit = match ended {
        Ended::Printed => b'0',
        Ended::Refused => b'1',
        Ended::Failed => b'2',
    };
    descriptors::write_all(rt, fd, &[digit]);
}
