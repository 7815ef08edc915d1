// The line of a refusal: "`refused,NUMBER,RECORD` and CRLF".
#![tactic(auto)]

ghost use Rattle.std.specs.Prelude.{◌≤◌, length};
ghost use Rattle.base.specs.Wrote.{Wrote};
ghost use Rattle.refusal_line.specs.Lines.{refusal_line};
ghost use Rattle.refusal_line.specs.Rooms.{line_room};

// Room for any refusal's line: `refused,`, and both numbers with what stands around them.
pub const LINE_ROOM: usize = 8 + decimal::PAIR_ROOM;

pub fn put_refusal(out: &mut [u8], number: u64, record: usize) -> usize
    requires { line_room ≤ length out.old }
    ensures { Wrote out.old 0 (refusal_line number «record») out.new result × (result ≤ line_room) }
{
    let a = base::put(out, 0, b"refused,");
    decimal::put_pair(out, a, number, record as u64)
}
