// A line for standard error, put together from its parts: texts, numbers, words of the command line as they are shown,
// a refusal in words. What has no room is left out; there is room for every line that is said.
#![tactic(auto)]

ghost use Rattle.std.specs.Prelude.{◌+◌, ◌≤◌, ◌↔◌, IsTrue, length};

use limits::Source;
use std::env::Env;

// Room for a line with a name in it, however it is quoted, and the words around it.
const LINE_MOST: usize = quoting::BYTE_MOST * asked::NAME_MOST + quoting::AROUND_MOST + 512;

// The digits of the largest number.
const DIGITS_MOST: usize = 20;

// A line as it is put together.
#[derive(Drop)]
pub struct Line {
    bytes: [u8; LINE_MOST],
    length: usize,
}

// Where the words of a refusal stand, which name the limit that held.
fn words_of(source: Source, number: usize) -> usize {
    if texts::REFUSALS < number {
        return 0;
    }
    match source {
        Source::StandardInput => number,
        Source::Cooperative => texts::COOPERATIVE_WORDS[number],
    }
}

impl Line {
    // A line with nothing in it.
    pub fn new() -> Line {
        Line {
            bytes: base::room(),
            length: 0,
        }
    }

    // What stands in the line.
    pub fn said(&self) -> &[u8] {
        base::part_of(&self.bytes, 0, self.length)
    }

    // Is there room for so many bytes more?
    fn has_room(&self, size: usize) -> bool
        ensures { IsTrue result ↔ self.now.length + size ≤ length self.now.bytes }
    {
        self.length <= LINE_MOST && size <= LINE_MOST - self.length
    }

    // A text behind what stands in the line; the line as it is where it has no room.
    pub fn add(&mut self, text: &[u8]) {
        if self.has_room(text.len()) {
            self.length = base::put(&mut self.bytes, self.length, text);
        }
    }

    pub fn add_number(&mut self, n: u64) {
        let mut digits = [0u8; DIGITS_MOST];
        let k = decimal::put_whole(&mut digits, 0, n);
        self.add(base::part_of(&digits, 0, k));
    }

    // A name as it is shown in messages.
    fn add_quoted(&mut self, name: &[u8]) {
        if name.len() <= asked::NAME_MOST
            && self.has_room(quoting::BYTE_MOST * name.len() + quoting::AROUND_MOST)
        {
            self.length = quoting::put_quoted(&mut self.bytes, self.length, name);
        }
    }

    // A word of the command line, as it is shown; nothing where there is none.
    fn add_word(&mut self, rt: &impl Env, word: usize) {
        if !asked::is_past(rt, word) {
            let mut given = [0u8; asked::NAME_MOST];
            let n = asked::word_at(rt, word, &mut given);
            self.add_quoted(&given[..n]);
        }
    }

    // A text and a word.
    pub fn add_both(&mut self, rt: &impl Env, text: &[u8], word: usize) {
        self.add(text);
        self.add_word(rt, word);
    }

    // The word that names the file, or this text where there is none.
    fn add_word_or(&mut self, rt: &impl Env, name: usize, text: &[u8]) {
        if asked::is_past(rt, name) {
            self.add(text);
        } else {
            self.add_word(rt, name);
        }
    }

    // The file's name, or what it is read from.
    pub fn add_name(&mut self, rt: &impl Env, name: usize) {
        self.add_word_or(rt, name, b"standard input");
    }

    pub fn add_source(&mut self, rt: &impl Env, name: usize) {
        self.add_word_or(rt, name, b"< FILE");
    }

    pub fn add_record(&mut self, record: usize) {
        if record != 0 {
            self.add(b"record ");
            self.add_number(record as u64);
            self.add(b": ");
        }
    }

    fn add_words(&mut self, i: usize) {
        if i <= texts::WORDS_LAST {
            self.add(base::part_of(
                &texts::WORDS,
                texts::WORDS_STARTS[i],
                texts::WORDS_STARTS[i + 1],
            ));
        }
    }

    // The refusal in words.
    pub fn add_refusal(&mut self, source: Source, number: u64) {
        self.add_words(words_of(source, number as usize));
        self.add(b" (refusal ");
        self.add_number(number);
        self.add(b")\n");
    }

    pub fn add_places(&mut self, changes: usize) {
        self.add_number(changes as u64);
        if changes == 1 {
            self.add(b" place");
        } else {
            self.add(b" places");
        }
    }

    // Is it above a line of so many grams?
    pub fn add_above(&mut self, is_above: bool, grams: u64) {
        if is_above {
            self.add(b"above ");
        } else {
            self.add(b"not above ");
        }
        self.add_number(grams);
        self.add(b" g of NH3-N a year: ");
    }

    // So many herds.
    pub fn add_herds(&mut self, count: usize) {
        self.add_number(count as u64);
        if count == 1 {
            self.add(b" herd");
        } else {
            self.add(b" herds");
        }
    }
}
