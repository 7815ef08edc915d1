// The calls on a farm's record, which for a caller is a lent slice of herds and a count (02, W12): its herds are the
// first `count` entries. A count beyond the slice, or beyond the herds that any farm may have, is refusal 9 with record
// 0. The herds are loaded into a farm by value, which the rest of the library works on.
#![tactic(auto)]

ghost use Rattle.std.specs.Prelude.{◌≡◌};
ghost use Rattle.contracts.specs.Listings.{Called};
ghost use Rattle.farm_calls.specs.Totals.{totals_in, listing_in};

use farm::Herd;
use lent::load;
use model::FarmAnswer;
use written::Written;

// The herds' totals in grams and in kilograms, or the refusal and zeros.
pub fn farm_totals(herds: &[Herd], count: usize) -> FarmAnswer
    ensures { result ≡ totals_in herds.now count }
{
    answers::farm_answer(load(herds, count))
}

// The totals' listing.
pub fn totals_listing(herds: &[Herd], count: usize, out: &mut [u8]) -> Written
    ensures { Called (listing_in herds.now count) out.old out.new result }
{
    herd_calls::totals_by_value(load(herds, count), out)
}
