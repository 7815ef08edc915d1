// What a spreadsheet does to a file (02, W6), found and counted: the mark EF BB BF at the very front, and the bare LFs,
// each of which has no CR right before it and an even number of quote bytes before it.
#![tactic(auto)]

ghost use Rattle.std.specs.Prelude.{◌≡◌, [], ◌≤◌, length, take};
ghost use Rattle.base.specs.Pick.{pick};
ghost use Rattle.spreadsheet.specs.Faults.{marked};
ghost use Rattle.spreadsheet.specs.Mended.{text_start, changes_of};
ghost use Rattle.spreadsheet.specs.Passed.{passed_of, and_byte, bare_after, crs_from};

const MARK: [u8; 3] = [0xEF, 0xBB, 0xBF];

// The bytes that were passed: is the last of them a CR, and are their quotes even in number?
#[derive(Clone, Copy, Debug, PartialEq, Eq)]
pub struct Passed {
    pub cr: bool,
    pub even: bool,
}

impl Passed {
    pub fn nothing() -> Self
        ensures { result ≡ passed_of [] }
    {
        Passed {
            cr: false,
            even: true,
        }
    }

    pub fn with_byte(self, b: u8) -> Self
        ensures { result ≡ and_byte self b }
    {
        Passed {
            cr: b == b'\r',
            even: self.even != (b == b'"'),
        }
    }

    // Is b, which comes next, a bare LF?
    pub fn bare(self, b: u8) -> bool
        ensures { result ≡ bare_after self b }
    {
        b == b'\n' && !self.cr && self.even
    }
}

// Does the mark stand at the very front?
pub fn is_marked(s: &[u8]) -> bool
    ensures { result ≡ marked s.now }
{
    base::same(base::part_of(s, 0, MARK.len()), &MARK)
}

// Where the text begins: past the mark, if there is one.
pub fn text_start(marked: bool) -> usize
    ensures { result ≡ text_start marked }
{
    if marked { MARK.len() } else { 0 }
}

pub fn as_count(holds: bool) -> usize
    ensures { (result ≡ pick holds 1 0) × (result ≤ 1) }
{
    usize::from(holds)
}

// How many LFs are bare, from a place on up to which nothing has passed that matters.
pub fn bare_count(s: &[u8], from: usize) -> usize
    requires { passed_of (take from s.now) ≡ passed_of [] }
    ensures { result ≡ length (crs_from s.now from) }
{
    let mut passed = Passed::nothing();
    let mut n = 0;
    for i in from..s.len() {
        n += as_count(passed.bare(s[i]));
        passed = passed.with_byte(s[i]);
    }
    n
}

// How many changes mending makes.
pub fn change_count(s: &[u8]) -> usize
    ensures { result ≡ length (changes_of s.now) }
{
    let marked = is_marked(s);
    as_count(marked) + bare_count(s, text_start(marked))
}
