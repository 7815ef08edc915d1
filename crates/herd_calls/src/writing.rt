// An accepted herd in a view, and totals, into the lent buffer: straight where it has room for every such text, else by
// way of a buffer that has.
ghost use Rattle.std.specs.Prelude.{◌≡◌, ◌≤◌, length};
ghost use Rattle.checks.specs.Checks.{check_herd};
ghost use Rattle.written.specs.Answer.{Answered};
ghost use Rattle.listing.specs.Listing.{totals_listing};
ghost use Rattle.listing_room.specs.Bounds.{totals_room};
ghost use Rattle.views.specs.Views.{herd_text};
ghost use Rattle.farm.specs.Answers.{Accepted};

use farm::Herd;
use outputs::Totals;
use views::{View, herds};
use written::Written;

pub fn write_herd(out: &mut [u8], h: Herd, view: View) -> Written
    requires { check_herd h ≡ Accepted }
    ensures { Answered (herd_text view h) out.old out.new result }
{
    if views::HERD_ROOM <= out.len() {
        Ok(herds::put_herd(out, 0, h, view))
    } else {
        let mut scratch = [0u8; views::HERD_ROOM];
        let n = herds::put_herd(&mut scratch, 0, h, view);
        written::hand_over(out, &scratch, n)
    }
}

pub fn write_totals(out: &mut [u8], t: Totals) -> Written
    requires { length (totals_listing t) ≤ totals_room }
    ensures { Answered (totals_listing t) out.old out.new result }
{
    if listing_room::TOTALS_ROOM <= out.len() {
        Ok(listing::put_total_lines(out, 0, t))
    } else {
        let mut scratch = [0u8; listing_room::TOTALS_ROOM];
        let n = listing::put_total_lines(&mut scratch, 0, t);
        written::hand_over(out, &scratch, n)
    }
}
