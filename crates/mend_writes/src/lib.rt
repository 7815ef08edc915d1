// The mended text and the list of changes (02, W6), written into lent slices that have room.
#![tactic(auto)]

ghost use Rattle.std.specs.Prelude.{◌≡◌, [], ◌+◌, ◌≤◌, length, take};
ghost use Rattle.base.specs.Wrote.{Wrote};
ghost use Rattle.spreadsheet.specs.Mended.{entries, mended_byte, change_at, mark_change};
ghost use Rattle.spreadsheet.specs.Passed.{passed_of, text_from, list_from};

use spreadsheet::Passed;

// The kinds of changes, as they are listed.
pub const MARK_DROPPED: usize = 1;

pub const CR_PUT: usize = 2;

// One byte, with a CR before it where it is a bare LF.
fn put_mended(out: &mut [u8], at: usize, b: u8, bare: bool) -> usize
    requires { at + length (mended_byte bare b) ≤ length out.old }
    ensures { Wrote out.old at (mended_byte bare b) out.new result }
{
    if bare {
        base::put(out, at, &[b'\r', b])
    } else {
        base::put_byte(out, at, b)
    }
}

// The mended text.
pub fn put_text(s: &[u8], from: usize, out: &mut [u8]) -> usize
    requires { (passed_of (take from s.now) ≡ passed_of []) × (length (text_from s.now from) ≤ length out.old) }
    ensures { Wrote out.old 0 (text_from s.now from) out.new result }
{
    let mut passed = Passed::nothing();
    let mut at = 0;
    for i in from..s.len() {
        at = put_mended(out, at, s[i], passed.bare(s[i]));
        passed = passed.with_byte(s[i]);
    }
    at
}

// The change at a place, where the LF there is bare.
fn put_change(list: &mut [usize], at: usize, place: usize, bare: bool) -> usize
    requires { at + length (entries (change_at bare place)) ≤ length list.old }
    ensures { Wrote list.old at (entries (change_at bare place)) list.new result }
{
    if bare {
        list[at] = CR_PUT;
        list[at + 1] = place;
        return at + 2;
    }
    at
}

// The mark's change, where there is a mark.
pub fn put_mark(list: &mut [usize], marked: bool) -> usize
    requires { length (entries (mark_change marked)) ≤ length list.old }
    ensures { Wrote list.old 0 (entries (mark_change marked)) list.new result }
{
    if marked {
        list[0] = MARK_DROPPED;
        list[1] = 0;
        return 2;
    }
    0
}

// The changes of the text.
pub fn put_changes(s: &[u8], from: usize, list: &mut [usize], start: usize) -> usize
    requires { (passed_of (take from s.now) ≡ passed_of [])
        × (start + length (list_from s.now from) ≤ length list.old) }
    ensures { Wrote list.old start (list_from s.now from) list.new result }
{
    let mut passed = Passed::nothing();
    let mut at = start;
    for i in from..s.len() {
        at = put_change(list, at, i, passed.bare(s[i]));
        passed = passed.with_byte(s[i]);
    }
    at
}
