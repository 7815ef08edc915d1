// A byte of a name as it is shown in a message, in each of three forms; and which form it asks for. Crate `quoting`
// puts names together of it.
#![tactic(auto)]

ghost use Rattle.std.specs.Prelude.{◌≡◌, ◌+◌, ◌≤◌, length};
ghost use Rattle.base.specs.Wrote.{Wrote};
ghost use Rattle.shown_bytes.specs.Shown.{between, harmless, letter, form_needed};
ghost use Rattle.shown_bytes.specs.Shown.{octal, in_quotes, stays, escaped, shown, byte_most};

// How a name is shown: as it is, in single quotes, or between $' and ' with what stands behind backslashes.
#[derive(Clone, Copy, Debug, PartialEq, Eq, PartialOrd, Ord)]
pub enum Form {
    Plain,
    Quoted,
    Escaped,
}

// A byte is shown as so many at most.
pub const BYTE_MOST: usize = 4;

// The bytes that every terminal prints.
const PRINTABLE: u8 = 32;

const PRINTABLE_LAST: u8 = 126;

// The first bytes of letters that UTF-8 writes in two, and the range of their second ones; behind LATIN the lower half
// are control bytes again.
const LATIN: u8 = 0xC2;

const LAST_OF_TWO: u8 = 0xDF;

const SECOND: u8 = 0x80;

const LATIN_SECOND: u8 = 0xA0;

const SECOND_LAST: u8 = 0xBF;

fn between(low: u8, b: u8, high: u8) -> bool
    ensures { result ≡ between low b high }
{
    (low..=high).contains(&b)
}

// Is it a letter, a digit, or one of + , - . / : @ _?
#[tactic(auto, using(base::proofs::Picks::picks), unfolding(crate::specs::Shown::harmless))]
fn is_harmless(b: u8) -> bool
    ensures { result ≡ harmless b }
{
    matches!(b, b'+'..=b':' | b'@'..=b'Z' | b'a'..=b'z' | b'_')
}

// Are these two bytes one letter?
#[tactic(auto, using(base::proofs::Picks::picks), unfolding(crate::specs::Shown::letter))]
pub fn is_letter(b: u8, c: u8) -> bool
    ensures { result ≡ letter b c }
{
    if b == LATIN {
        between(LATIN_SECOND, c, SECOND_LAST)
    } else {
        between(LATIN, b, LAST_OF_TWO) && between(SECOND, c, SECOND_LAST)
    }
}

// The form that a byte asks for.
#[tactic(auto, using(base::proofs::Picks::picks), unfolding(crate::specs::Shown::form_needed))]
pub fn form_needed(b: u8) -> Form
    ensures { result ≡ form_needed b }
{
    if is_harmless(b) {
        Form::Plain
    } else if between(PRINTABLE, b, PRINTABLE_LAST) {
        Form::Quoted
    } else {
        Form::Escaped
    }
}

// A backslash, and the byte in three octal digits.
fn put_octal(out: &mut [u8], at: usize, b: u8) -> usize
    requires { at + byte_most ≤ length out.old }
    ensures { Wrote out.old at (octal b) out.new result }
{
    let shown = [b'\\', b'0' + b / 64 % 8, b'0' + b / 8 % 8, b'0' + b % 8];
    base::put(out, at, &shown)
}

// A byte between single quotes: a quote by closing them, a backslash before it, and opening them again.
fn put_in_quotes(out: &mut [u8], at: usize, b: u8) -> usize
    requires { at + byte_most ≤ length out.old }
    ensures { Wrote out.old at (in_quotes b) out.new result }
{
    if b == b'\'' {
        base::put(out, at, b"'\\''")
    } else {
        base::put_byte(out, at, b)
    }
}

#[tactic(auto, using(base::proofs::Picks::picks), unfolding(crate::specs::Shown::stays))]
fn stays(b: u8) -> bool
    ensures { result ≡ stays b }
{
    b != b'\'' && b != b'\\' && between(PRINTABLE, b, PRINTABLE_LAST)
}

fn put_escaped(out: &mut [u8], at: usize, b: u8) -> usize
    requires { at + byte_most ≤ length out.old }
    ensures { Wrote out.old at (escaped b) out.new result }
{
    if stays(b) {
        base::put_byte(out, at, b)
    } else {
        put_octal(out, at, b)
    }
}

pub fn put_shown(out: &mut [u8], at: usize, form: Form, b: u8) -> usize
    requires { at + byte_most ≤ length out.old }
    ensures { Wrote out.old at (shown form b) out.new result }
{
    match form {
        Form::Plain => base::put_byte(out, at, b),
        Form::Quoted => put_in_quotes(out, at, b),
        Form::Escaped => put_escaped(out, at, b),
    }
}
