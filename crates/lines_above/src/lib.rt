// What is printed for the line's answer (02, W8): yes or no and how many herds were added up, or the refusal's line.
#![tactic(auto)]

ghost use Rattle.std.specs.Prelude.{◌+◌, ◌≤◌, length};
ghost use Rattle.base.specs.Wrote.{Wrote};
ghost use Rattle.decimal.specs.Rooms.{digits_most};
ghost use Rattle.refusal_line.specs.Rooms.{line_room};
ghost use Rattle.lines_above.specs.Lines.{counted, above_line, answer_line};

use above_line::{Above, LineAnswer};
use base::refusals::Refused;

// Room for any answer: a refusal's line is the longest.
pub const ANSWER_ROOM: usize = refusal_line::LINE_ROOM;

// A word with its comma, and the count behind it.
fn put_count(out: &mut [u8], word: &[u8], count: usize) -> usize
    requires { length word.now + digits_most + 2 ≤ length out.old }
    ensures { Wrote out.old 0 (counted word.now count) out.new result
        × (result ≤ length word.now + digits_most + 2) }
{
    let a = base::put(out, 0, word);
    let b = decimal::put_whole(out, a, count as u64);
    base::put(out, b, b"\r\n")
}

fn put_above(out: &mut [u8], above: Above) -> usize
    requires { line_room ≤ length out.old }
    ensures { Wrote out.old 0 (above_line above) out.new result × (result ≤ line_room) }
{
    match above {
        Above::Yes(count) => put_count(out, b"yes,", count),
        Above::No(count) => put_count(out, b"no,", count),
    }
}

pub fn put_answer(out: &mut [u8], answer: LineAnswer) -> usize
    requires { line_room ≤ length out.old }
    ensures { Wrote out.old 0 (answer_line answer) out.new result × (result ≤ line_room) }
{
    match answer {
        Ok(above) => put_above(out, above),
        Err(Refused(refusal, record)) => file_refusal_line::put_line(out, refusal, record),
    }
}
