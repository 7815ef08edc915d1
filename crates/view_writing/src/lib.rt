// A view of an accepted farm into a lent buffer that may be too short for it. Its length is worked out first, herd by
// herd, and nothing is written unless all of it fits. No scratch grows with the herds: one has room for a herd, one for
// what stands behind them.
#![tactic(auto)]

mod lengths; // how long the herds' texts are
mod parts; // herds, and what stands behind them, put where they just fit

ghost use Rattle.std.specs.Prelude.{◌≡◌};
ghost use Rattle.checks.specs.Checks.{check_farm};
ghost use Rattle.written.specs.Answer.{Answered};
ghost use Rattle.views.specs.Views.{viewed};
ghost use Rattle.farm.specs.Answers.{Accepted};

use base::refusals::Refused;
use farm::{Farm, Refusal};
use views::View;
use written::Written;

// What the view lists of the farm, or refusal 13 where the buffer is shorter.
pub fn write_view(out: &mut [u8], farm: Farm, view: View) -> Written
    requires { check_farm farm ≡ Accepted }
    ensures { Answered (viewed view farm) out.old out.new result }
{
    let mut behind = [0u8; views::BEHIND_ROOM];
    let n = parts::put_behind(&mut behind, farm, view);
    let whole = lengths::herds_length(farm, view) + n;
    if out.len() < whole {
        return Err(Refused(Refusal::BufferTooShort, 0));
    }
    let at = parts::put_herds(out, farm, view);
    Ok(base::put(out, at, base::part_of(&behind, 0, n)))
}
