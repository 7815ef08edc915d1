// Answers on standard output, a line each.
use base::refusals::Refused;
use farm::{Checked, Refusal};
use written::Written;

// As long as kilograms can be.
const KILOGRAMS_MOST: usize = 21;

fn say(rt: &impl Print, text: &[u8]) {
    let _ = rt.write_all(text);
}

pub fn line(rt: &impl Print, text: &[u8]) {
    say(rt, text);
    say(rt, b"\r\n");
}

pub fn number(rt: &impl Print, n: u64) {
    let _ = print!(rt; "{n}");
    say(rt, b"\r\n");
}

// Grams, as kilograms.
pub fn kilograms(rt: &impl Print, grams: i64) {
    let mut text = [0u8; KILOGRAMS_MOST];
    let n = kilogram_text::put_kilograms(&mut text, 0, grams);
    line(rt, base::part_of(&text, 0, n));
}

fn refusal_line(rt: &impl Print, refusal: Refusal, record: usize) {
    let _ = crate::print_refusal(rt, refusal, record);
}

pub fn checked_line(rt: &impl Print, checked: Checked) {
    match checked {
        Ok(()) => line(rt, b"accepted"),
        Err(Refused(refusal, record)) => refusal_line(rt, refusal, record),
    }
}

pub fn written_line(rt: &impl Print, written: Written) {
    match written {
        Ok(n) => {
            say(rt, b"length,");
            number(rt, n as u64);
        }
        Err(Refused(refusal, record)) => refusal_line(rt, refusal, record),
    }
}
