// Mends what spreadsheets do to a file (02, W6): drops the mark EF BB BF at the very front, and puts a CR before each
// bare LF, which is one with no CR right before it and an even number of quote bytes before it. Each change is
// listed. What is promised stands in crate `mending_theorems`.
//
// The file is gone through twice: first the changes are counted, and only where both lent slices have room is
// anything written.
#![tactic(auto)]

ghost use Rattle.mend.specs.Answer.{Mends};

use base::refusals::Refused;
use farm::{Answer, Refusal};

// How many changes mending makes.
pub use spreadsheet::change_count;

// So many numbers a change has in the list: its kind, and its place in the old file.
pub const ENTRY: usize = 2;

// The mended file and the list of changes, kind and place one after the other; or 13 with record 0 where either lent
// slice has no room, and both as they were.
pub fn mend(s: &[u8], out: &mut [u8], list: &mut [usize]) -> Answer<(usize, usize)>
    ensures { Mends s.now out.old list.old out.new list.new
        result }
{
    let marked = spreadsheet::is_marked(s);
    let from = spreadsheet::text_start(marked);
    let crs = spreadsheet::bare_count(s, from);
    let length = s.len() - from + crs;
    let changes = spreadsheet::as_count(marked) + crs;
    if out.len() < length || list.len() < ENTRY * changes {
        return Err(Refused(Refusal::BufferTooShort, 0));
    }
    mend_writes::put_text(s, from, out);
    let at = mend_writes::put_mark(list, marked);
    mend_writes::put_changes(s, from, list, at);
    Ok((length, changes))
}
