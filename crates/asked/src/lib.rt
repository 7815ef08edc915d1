// The words of the command line: which command they ask for, and where the file's name stands.
#![tactic(auto)]

pub mod commands; // the commands of the program, by their pages of help

ghost use Rattle.std.specs.Prelude.{◌≤◌, length};

use std::env::{Env, FillError};

// What the words behind a command say of the file: is it a cooperative's, where its name stands, and where the words
// end that say so.
#[derive(Clone, Copy, Debug, PartialEq, Eq)]
pub struct File {
    pub cooperative: bool,
    pub name: usize,
    pub end: usize,
}

// The words that are options, and those of the command edit.
pub const STATUS: &[u8] = b"--status-fd";

pub const WORDS: &[u8] = b"--words";

pub const COOPERATIVE: &[u8] = b"--cooperative";

pub const FARM: &[u8] = b"--farm";

pub const ADD: &[u8] = b"add";

pub const REPLACE: &[u8] = b"replace";

pub const REMOVE: &[u8] = b"remove";

// The word for standard input.
pub const INPUT: &[u8] = b"-";

// Longer than any word that is asked for.
const WORD_MOST: usize = 16;

// Longer than any number of grams that is taken.
const GRAMS_MOST: usize = 24;

// The longest name that a file can be opened by, and a byte more.
pub const NAME_MOST: usize = 4096;

// A process has no more descriptors.
const DESCRIPTOR_MOST: u32 = 1000000;

// The number of the word behind this one.
pub fn after(i: usize) -> usize {
    i.saturating_add(1)
}

// Is there no such word?
pub fn is_past(rt: &impl Env, i: usize) -> bool {
    matches!(rt.arg(i, &mut []), Err(FillError::NotPresent))
}

// How many words there are from this one on.
pub fn count_from(rt: &impl Env, i: usize) -> usize {
    (i..usize::MAX)
        .take_while(|word| !is_past(rt, *word))
        .count()
}

// Is it longer than a name may be?
pub fn is_too_long(rt: &impl Env, i: usize) -> bool {
    let mut name = [0u8; NAME_MOST];
    matches!(rt.arg(i, &mut name), Err(FillError::TooLong))
}

// The bytes of a word, at the start of the buffer, and how many there are. Of a word that is not there none; nor of one
// that is longer than the buffer.
pub fn word_at(rt: &impl Env, i: usize, into: &mut [u8]) -> usize
    ensures { result ≤ length into.new }
{
    rt.arg(i, into).unwrap_or(0)
}

pub fn is_word(rt: &impl Env, i: usize, word: &[u8]) -> bool {
    let mut given = [0u8; WORD_MOST];
    let n = word_at(rt, i, &mut given);
    &given[..n] == word
}

// The words from this one on: a name, and --cooperative before or behind it.
pub fn file_at(rt: &impl Env, i: usize) -> File {
    let second = after(i);
    if is_word(rt, i, COOPERATIVE) {
        File {
            cooperative: true,
            name: second,
            end: after(second),
        }
    } else if is_word(rt, second, COOPERATIVE) {
        File {
            cooperative: true,
            name: i,
            end: after(second),
        }
    } else {
        File {
            cooperative: false,
            name: i,
            end: second,
        }
    }
}

// Is it the command of that page?
fn is_named(word: &[u8], page: usize) -> bool {
    let names = texts::NAMES;
    let starts = texts::NAMES_STARTS;
    page <= texts::PAGE_LAST && word == base::part_of(&names, starts[page], starts[page + 1])
}

// The command that a word names, by the number of its page of help. From the last page to the first.
fn page_of(word: &[u8]) -> Option<usize> {
    (0..=texts::PAGE_LAST)
        .rev()
        .find(|page| is_named(word, *page))
}

// The command that the word at i names.
pub fn command_at(rt: &impl Env, i: usize) -> Option<usize> {
    let mut given = [0u8; WORD_MOST];
    let n = word_at(rt, i, &mut given);
    page_of(&given[..n])
}

// The descriptor that a word names.
pub fn descriptor_at(rt: &impl Env, i: usize) -> Option<i32> {
    let mut given = [0u8; WORD_MOST];
    let n = word_at(rt, i, &mut given);
    match numbers::read_number(&given[..n], 0, DESCRIPTOR_MOST) {
        Some(n) => i32::try_from(n).ok(),
        None => None,
    }
}

// The number of grams that a word says; a word that is not there says none.
pub fn grams_at(rt: &impl Env, i: usize) -> Option<u64> {
    let mut given = [0u8; GRAMS_MOST];
    let n = word_at(rt, i, &mut given);
    wide_numbers::read_wide(&given[..n])
}
