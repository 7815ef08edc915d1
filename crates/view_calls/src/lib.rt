// A view of a farm by value into a lent buffer, for the calls that have read or loaded one: what its checks refuse
// comes first, then 1 where the view is a file that would be too long, then 13. On a refusal nothing is written.
#![tactic(auto)]

ghost use Rattle.std.specs.Prelude.{◌≡◌};
ghost use Rattle.checks.specs.Checks.{check_farm};
ghost use Rattle.contracts.specs.Listings.{Called, accepted_call, farm_call};
ghost use Rattle.farm.specs.Answers.{Accepted};

use farm::Farm;
use views::{View, farms};
use written::Written;

// What the view lists of a farm that the checks accept.
pub fn accepted_view(view: View, f: Farm, out: &mut [u8]) -> Written
    requires { check_farm f ≡ Accepted }
    ensures { Called (accepted_call view f) out.old out.new result }
{
    farms::check_view(f, view)?;
    view_writing::write_view(out, f, view)
}

// Of any farm.
pub fn view_by_value(view: View, f: Farm, out: &mut [u8]) -> Written
    ensures { Called (farm_call view f) out.old out.new result }
{
    checks::check_farm(f)?;
    accepted_view(view, f, out)
}
