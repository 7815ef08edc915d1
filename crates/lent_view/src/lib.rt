// What a view lists of a farm's record, which for a caller is a lent slice of herds and a count (02, W12): the file
// that says its herds among them (02, W5). What the checks refuse comes first, then 1 where the file would be too long,
// then 13. A count beyond the slice, or beyond the herds that any farm may have, is refusal 9 with record 0, as in
// crate `farm_calls`.
#![tactic(auto)]

ghost use Rattle.contracts.specs.Listings.{Called};
ghost use Rattle.lent_view.specs.Views.{view_in};

use farm::Herd;
use lent::load;
use views::View;
use written::Written;

pub fn farm_view(view: View, herds: &[Herd], count: usize, out: &mut [u8]) -> Written
    ensures { Called (view_in view herds.now count) out.old out.new result }
{
    view_calls::view_by_value(view, load(herds, count), out)
}
