// How long the text of a herd is in a view, and the texts of all herds of a farm: each is put into a scratch.
ghost use Rattle.std.specs.Prelude.{◌≡◌, ◌*◌, ◌≤◌, length};
ghost use Rattle.checks.specs.Checks.{check_herd, check_farm, herds_of};
ghost use Rattle.line_parts.specs.Fields.{each};
ghost use Rattle.views.specs.Views.{herd_text};
ghost use Rattle.views.specs.Rooms.{herd_view_room};
ghost use Rattle.farm.specs.Answers.{Accepted};

use farm::{Farm, Herd};
use views::{View, herds};

fn herd_length(h: Herd, view: View) -> usize
    requires { check_herd h ≡ Accepted }
    ensures { (result ≡ length (herd_text view h)) × (result ≤ herd_view_room) }
{
    let mut scratch = [0u8; views::HERD_ROOM];
    herds::put_herd(&mut scratch, 0, h, view)
}

#[tactic(auto, using(views::proofs::FarmSteps::few_herds))]
pub fn herds_length(farm: Farm, view: View) -> usize
    requires { check_farm farm ≡ Accepted }
    ensures { (result ≡ length (each (herd_text view) (herds_of farm))) × (result ≤ farm.count * herd_view_room) }
{
    let mut sum = 0;
    for h in &farm.herds[..farm.count] {
        sum += herd_length(*h, view);
    }
    sum
}
