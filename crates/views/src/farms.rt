// An accepted farm in a view, and whether the view has a limit that it passes.
ghost use Rattle.std.specs.Prelude.{◌≡◌, ◌≤◌, length};
ghost use Rattle.base.specs.Wrote.{Wrote};
ghost use Rattle.checks.specs.Checks.{check_farm};
ghost use Rattle.views.specs.Views.{viewed, has_limit, view_checked, is_figures};
ghost use Rattle.views.specs.Rooms.{view_room};
ghost use Rattle.views.specs.Program.{Put};
ghost use Rattle.farm.specs.Answers.{Accepted};

use crate::{View, herds};
use farm::{Checked, Farm};
use written::Written;

// The totals stand behind the figures alone. Each view has its arm, so that a further one is not forgotten here.
pub fn is_figures(view: View) -> bool
    ensures { result ≡ is_figures view }
{
    match view {
        View::Figures => true,
        View::Notes | View::Cuts | View::Reasons | View::Sentences | View::File => false,
    }
}

// A file alone may be too long. Each view has its arm here, too.
pub fn has_limit(view: View) -> bool
    ensures { result ≡ has_limit view }
{
    match view {
        View::File => true,
        View::Figures | View::Notes | View::Cuts | View::Reasons | View::Sentences => false,
    }
}

// Whether the view may be handed out.
pub fn check_view(farm: Farm, view: View) -> Checked
    requires { check_farm farm ≡ Accepted }
    ensures { result ≡ view_checked view farm }
{
    if has_limit(view) {
        file_length::check_file(farm)
    } else {
        Ok(())
    }
}

// What the view lists of the farm, from the front of the buffer on; the end of it. The figures are added up on the way.
pub fn put_view(out: &mut [u8], farm: Farm, view: View) -> usize
    requires { (check_farm farm ≡ Accepted) × (view_room farm.count ≤ length out.old) }
    ensures { Wrote out.old 0 (viewed view farm) out.new result
        × (result ≤ view_room farm.count) }
{
    if is_figures(view) {
        lines_figures::put_farm(out, farm)
    } else {
        herds::put_herds(out, farm, view)
    }
}

// The same of a view that may have a limit: where it passes it, the refusal, and nothing is written.
pub fn put_limited(out: &mut [u8], farm: Farm, view: View) -> Written
    requires { (check_farm farm ≡ Accepted) × (view_room farm.count ≤ length out.old) }
    ensures { Put (view_room farm.count) (view_checked view farm) (viewed view farm)
        out.old out.new result }
{
    check_view(farm, view)?;
    Ok(put_view(out, farm, view))
}
