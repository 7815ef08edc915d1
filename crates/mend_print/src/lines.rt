// The list of changes as text.
ghost use Rattle.std.specs.Prelude.{◌*◌, ◌≤◌, length};
ghost use Rattle.base.specs.Wrote.{Wrote};
ghost use Rattle.mend_print.specs.Lines.{lines_of, number_room};

// Room for a number of the list, and what stands behind it.
pub const NUMBER_ROOM: usize = decimal::DIGITS_MOST + 2;

// Changes, kind and place one after the other.
#[tactic(auto, using(crate::proofs::LineSteps::line_steps))]
pub fn put_lines(out: &mut [u8], list: &[usize]) -> usize
    requires { length list.now * number_room ≤ length out.old }
    ensures { Wrote out.old 0 (lines_of list.now) out.new result }
{
    let mut at = 0;
    let mut rest = list;
    while let [kind, place, behind @ ..] = rest {
        at = decimal::put_pair(out, at, *kind as u64, *place as u64);
        rest = behind;
    }
    at
}
