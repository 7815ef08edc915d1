// Files one after the other on standard input, each behind its length in four bytes, the lowest first: how test
// programs get the vectors of the second implementation.
#![tactic(auto)]

use limits::Source;

const LENGTH_BYTES: usize = 4;

// Reads as much as there is room for; was there so much?
fn filled(rt: &impl Input, into: &mut [u8]) -> bool {
    let size = into.len();
    matches!(streams::read_all(rt, into), Ok(n) if n == size)
}

// The next file, into the front of the buffer, and its length; none where there is none, or not all of it, or where it
// is longer than the buffer.
pub fn next_file(rt: &impl Input, file: &mut [u8]) -> Option<usize> {
    let mut head = [0u8; LENGTH_BYTES];
    if !filled(rt, &mut head) {
        return None;
    }
    let n = u32::from_le_bytes(head) as usize;
    (n <= file.len() && filled(rt, &mut file[..n])).then_some(n)
}

// Where a file comes from, by the letter before it: c for a cooperative, else standard input.
pub fn source_of(letter: &[u8]) -> Source {
    match letter {
        b"c" => Source::Cooperative,
        _ => Source::StandardInput,
    }
}
