// The calls on a farm's record, lent an array that is handed in by value. The programs that test the calls, and the one
// that measures them, go through these.
#![tactic(auto)]

ghost use Rattle.std.specs.Prelude.{◌≡◌};
ghost use Rattle.contracts.specs.Listings.{Called};
ghost use Rattle.farm_calls.specs.Totals.{totals_in, listing_in};
ghost use Rattle.lent_view.specs.Views.{view_in};

use farm::{HERDS_MOST, Herd};
use model::FarmAnswer;
use views::View;
use written::Written;

// An array that is shorter than any farm may be.
pub const FEW: usize = 3;

pub fn totals_through<const N: usize>(herds: [Herd; N], count: usize) -> FarmAnswer
    ensures { result ≡ totals_in herds.entry count }
{
    farm_calls::farm_totals(&herds, count)
}

pub fn listing_through(herds: [Herd; HERDS_MOST], count: usize, out: &mut [u8]) -> Written
    ensures { Called (listing_in herds count) out.old out.new result }
{
    farm_calls::totals_listing(&herds, count, out)
}

pub fn view_through(view: View, herds: [Herd; HERDS_MOST], count: usize, out: &mut [u8]) -> Written
    ensures { Called (view_in view herds count) out.old out.new result }
{
    lent_view::farm_view(view, &herds, count, out)
}
