// The line of a farm file's refusal, of its fault and its record.
#![tactic(auto)]

ghost use Rattle.std.specs.Prelude.{◌≤◌, length};
ghost use Rattle.base.specs.Wrote.{Wrote};
ghost use Rattle.farm.specs.Refusals.{number};
ghost use Rattle.refusal_line.specs.Lines.{refusal_line};
ghost use Rattle.refusal_line.specs.Rooms.{line_room};

use farm::Refusal;

pub fn put_line(out: &mut [u8], refusal: Refusal, record: usize) -> usize
    requires { line_room ≤ length out.old }
    ensures { Wrote out.old 0 (refusal_line (number refusal) «record») out.new result
        × (result ≤ line_room) }
{
    refusal_line::put_refusal(out, refusal_numbers::number_of(refusal), record)
}
