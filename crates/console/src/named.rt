// A file that is opened and read by its name, a word of the command line. Where that fails it is said, with the name.
ghost use Rattle.std.specs.Prelude.{length};
ghost use Rattle.streams.specs.Within.{Within};

use crate::Surroundings;
use message_lines::Line;
use std::env::Env;
use std::fs;
use std::io::{Error, ErrorKind, Read, Result};
use std::rt::Files;
use streams::{Outcome, telling};

// The file, open for reading; a name that is no text opens none.
fn open<R: Env + Files>(rt: &R, name: usize) -> Result<R::File> {
    let mut path = [0u8; asked::NAME_MOST];
    let n = asked::word_at(rt, name, &mut path);
    match str::from_utf8(&path[..n]) {
        Ok(path) => fs::open(rt, path),
        Err(_) => Err(Error::from(ErrorKind::InvalidFilename)),
    }
}

fn read_open<F: Read>(file: &mut Result<F>, into: &mut [u8]) -> Outcome
    ensures { Within (length into.new) result }
{
    match file {
        Ok(file) => streams::read_from(file, into),
        Err(error) => Err(Some(*error)),
    }
}

// A file that is let go is closed.
fn close<F: Drop>(_file: Result<F>) {}

// What is said of a file that cannot be read.
fn unread(rt: &impl Surroundings, name: usize, error: Option<Error>) {
    let mut line = Line::new();
    line.add_both(rt, b"urvendlo: ", name);
    line.add(b": it cannot be read");
    telling::fail(rt, line.said(), error);
}

// The file to its end, or until the buffer is full.
pub fn read_file(rt: &impl Surroundings, name: usize, into: &mut [u8]) -> Outcome
    ensures { Within (length into.new) result }
{
    let mut file = open(rt, name);
    let outcome = read_open(&mut file, into);
    if let Err(error) = outcome {
        unread(rt, name, error);
    }
    close(file);
    outcome
}
