// What is printed for a step (02, W11): the totals' listing after it, or the line of its refusal.
#![tactic(auto)]

ghost use Rattle.std.specs.Prelude.{◌≤◌, length};
ghost use Rattle.base.specs.Wrote.{Wrote};
ghost use Rattle.lines_steps.specs.Lines.{step_lines};
ghost use Rattle.lines_steps.specs.Rooms.{room_for};

use books::Decided;
use outputs::Totals;

// What is printed for what was decided of a step, with these totals after it; its end.
pub fn put_answer(out: &mut [u8], decided: Decided, totals: Totals) -> usize
    requires { room_for decided totals ≤ length out.old }
    ensures { Wrote out.old 0 (step_lines decided totals) out.new result }
{
    match decided {
        Ok(()) => listing::put_total_lines(out, 0, totals),
        Err(refusal) => refusal_line::put_refusal(out, books::numbers::number_of(refusal), 0),
    }
}
