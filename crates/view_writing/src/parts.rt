// A view of a farm in parts: herd by herd into a buffer that may have no byte more than all of them take, and what
// stands behind them. A herd is put into a scratch first, since its writer asks for room for any herd.
ghost use Rattle.std.specs.Prelude.{◌≡◌, ◌+◌, ◌≤◌, length};
ghost use Rattle.base.specs.Wrote.{Wrote};
ghost use Rattle.checks.specs.Checks.{check_herd, check_farm, herds_of};
ghost use Rattle.line_parts.specs.Fields.{each};
ghost use Rattle.views.specs.Views.{herd_text};
ghost use Rattle.views.specs.Rooms.{herd_view_room, behind_room};
ghost use Rattle.view_writing.specs.Behind.{behind};
ghost use Rattle.farm.specs.Answers.{Accepted};

use farm::{Farm, Herd};
use views::{View, farms, herds};

fn put_herd(out: &mut [u8], at: usize, h: Herd, view: View) -> usize
    requires { (check_herd h ≡ Accepted) × (at + length (herd_text view h) ≤ length out.old) }
    ensures { Wrote out.old at (herd_text view h) out.new result × (result ≤ at + herd_view_room) }
{
    let mut scratch = [0u8; views::HERD_ROOM];
    let n = herds::put_herd(&mut scratch, 0, h, view);
    base::put(out, at, base::part_of(&scratch, 0, n))
}

#[tactic(auto, using(views::proofs::FarmSteps::few_herds))]
pub fn put_herds(out: &mut [u8], farm: Farm, view: View) -> usize
    requires { (check_farm farm ≡ Accepted) × (length (each (herd_text view) (herds_of farm)) ≤ length out.old) }
    ensures { Wrote out.old 0 (each (herd_text view) (herds_of farm)) out.new result }
{
    let mut at = 0;
    for h in &farm.herds[..farm.count] {
        at = put_herd(out, at, *h, view);
    }
    at
}

// The totals behind the figures, and behind another view nothing.
pub fn put_behind(out: &mut [u8], farm: Farm, view: View) -> usize
    requires { (check_farm farm ≡ Accepted) × (behind_room ≤ length out.old) }
    ensures { Wrote out.old 0 (behind view farm) out.new result × (result ≤ behind_room) }
{
    if farms::is_figures(view) {
        listing::put_total_lines(out, 0, sums::totals_from(farm_sums::sum_of(farm)))
    } else {
        0
    }
}
