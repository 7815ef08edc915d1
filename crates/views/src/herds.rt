// An accepted herd in a view, and the herds of an accepted farm one after the other.
ghost use Rattle.std.specs.Prelude.{◌≡◌, ◌+◌, ◌*◌, ◌≤◌, length};
ghost use Rattle.base.specs.Wrote.{Wrote};
ghost use Rattle.checks.specs.Checks.{check_herd, check_farm, herds_of};
ghost use Rattle.line_parts.specs.Fields.{each};
ghost use Rattle.views.specs.Views.{herd_text};
ghost use Rattle.views.specs.Rooms.{herd_view_room};
ghost use Rattle.farm.specs.Answers.{Accepted};

use crate::View;
use farm::{Farm, Herd};
use lines_reasons::Wording;

// What the view lists of the herd, from `at` on; the end of it.
pub fn put_herd(out: &mut [u8], at: usize, h: Herd, view: View) -> usize
    requires { (check_herd h ≡ Accepted) × (at + herd_view_room ≤ length out.old) }
    ensures { Wrote out.old at (herd_text view h) out.new result × (result ≤ at + herd_view_room) }
{
    match view {
        View::Figures => lines_figures::put_herd(out, at, h),
        View::Notes => lines_notes::put_herd(out, at, h),
        View::Cuts => lines_cuts::put_herd(out, at, h),
        View::Reasons => lines_reasons::put_herd(out, at, h, Wording::Record),
        View::Sentences => lines_reasons::put_herd(out, at, h, Wording::Sentence),
        View::File => file_text::put_herd(out, at, h),
    }
}

// Herd after herd, from the front of the buffer on; the end of the last. view_writing has these three lines for its own
// writer; as one function they would take a closure, whose contract is longer than they are.
#[tactic(auto, using(crate::proofs::FarmSteps::few_herds))]
pub fn put_herds(out: &mut [u8], farm: Farm, view: View) -> usize
    requires { (check_farm farm ≡ Accepted) × (farm.count * herd_view_room ≤ length out.old) }
    ensures { Wrote out.old 0 (each (herd_text view) (herds_of farm)) out.new result
        × (result ≤ farm.count * herd_view_room) }
{
    let mut at = 0;
    for h in &farm.herds[..farm.count] {
        at = put_herd(out, at, *h, view);
    }
    at
}
