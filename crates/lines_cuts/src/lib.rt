// 02, W7: a herd's cuts as records, byte by byte, into a lent buffer: label and module as in the listing, name, what
// was cut off, divisor. A name under which no cut was made has no record.
#![tactic(auto)]

mod texts; // sections and names
mod lines; // a record, and records one after the other

ghost use Rattle.std.specs.Prelude.{◌≡◌, ◌+◌, ◌≤◌, length};
ghost use Rattle.base.specs.Wrote.{Wrote};
ghost use Rattle.checks.specs.Checks.{check_herd};
ghost use Rattle.lines_cuts.specs.Lines.{cuts_listing, herd_cut_lines};
ghost use Rattle.lines_cuts.specs.Rooms.{longest_cuts};
ghost use Rattle.farm.specs.Answers.{Accepted};

use cuts::Cuts;
use farm::{Herd, Label};
use inputs::Kind;
use line_parts::owners;

// As long as the records of a herd can be.
pub const LONGEST: usize = 1752;

// The records of these cuts from `at` on; the end of them.
fn put_cuts(out: &mut [u8], at: usize, label: Label, kind: Kind, c: Cuts) -> usize
    requires { at + length (cuts_listing label kind c) ≤ length out.old }
    ensures { Wrote out.old at (cuts_listing label kind c) out.new result }
{
    let mut in_owner = [0u8; owners::OWNER_MOST];
    let n = owners::put_owner(&mut in_owner, label, kind);
    lines::put_lines(
        out,
        at,
        base::part_of(&in_owner, 0, n),
        &texts::MIDDLES,
        &texts::STARTS,
        &c.cut_off,
        &c.divisor,
        &texts::LINES,
    )
}

// The records of an accepted herd, from `at` on; the end of them.
pub fn put_herd(out: &mut [u8], at: usize, h: Herd) -> usize
    requires { (check_herd h ≡ Accepted) × (at + longest_cuts ≤ length out.old) }
    ensures { Wrote out.old at (herd_cut_lines h) out.new result × (result ≤ at + longest_cuts) }
{
    put_cuts(
        out,
        at,
        h.label,
        h.kind,
        herd_figures::cuts_of(herd_inputs::typed_of(h)),
    )
}
