// A line of the script, 96 bytes with its end: the kind of case, two changes of a record, the number of herds, and a
// remark, as in `F V 00 010001 L 00 000000 000002 a first herd out of range, a second with a bad label`.
ghost use Rattle.std.specs.Prelude.{◌≤◌};

pub const LINE: usize = 96;

// A line without its end, and where its parts stand.
pub const TEXT: usize = 95;

pub const FIRST: usize = 2;

pub const SECOND: usize = 14;

pub const NUMBER: usize = 26;

// A change of a record: of the label L the length or B a byte, of a slot V to a value, S to `standard` or M to nothing;
// - is none.
#[derive(Clone, Copy, Debug, PartialEq, Eq)]
pub struct Change {
    pub what: u8,
    pub place: usize,
    pub value: u32,
}

fn digit(line: &[u8], at: usize) -> u32
    ensures { result ≤ 9 }
{
    if line.len() <= at {
        0
    } else {
        u32::from(line[at] % 16 % 10)
    }
}

fn three_at(line: &[u8], at: usize) -> u32
    requires { at ≤ 80 }
    ensures { result ≤ 999 }
{
    100 * digit(line, at) + 10 * digit(line, at + 1) + digit(line, at + 2)
}

// Six digits.
pub fn number_at(line: &[u8], at: usize) -> u32
    requires { at ≤ 77 }
    ensures { result ≤ 999999 }
{
    1000 * three_at(line, at) + three_at(line, at + 3)
}

// As in `V 00 010001`, slot 0 at 10001.
pub fn change_at(line: &[u8; LINE], at: usize) -> Change
    requires { at ≤ 40 }
{
    Change {
        what: line[at],
        place: (10 * digit(line, at + 2) + digit(line, at + 3)) as usize,
        value: number_at(line, at + 5),
    }
}

// The next line, if there is one more.
pub fn read_line(rt: &impl Input, line: &mut [u8]) -> bool {
    let size = line.len();
    matches!(streams::read_all(rt, line), Ok(n) if n == size)
}
