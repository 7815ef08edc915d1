// 02, W8: whether a farm's nh3_nlivestock passes a line, found herd by herd; no herd behind the answer is worked out.
#![tactic(auto)]

ghost use Rattle.std.specs.Prelude.{◌≡◌};
ghost use Rattle.checks.specs.Checks.{check_farm, herds_of};
ghost use Rattle.kinds.specs.Sound.{Sound};
ghost use Rattle.typed_inputs.specs.Typed.{typed_of};
ghost use Rattle.above_line.specs.Adding.{Own};
ghost use Rattle.above_line.specs.Line.{Says};
ghost use Rattle.farm.specs.Answers.{Accepted};

use above_line::Above;
use farm::{Farm, Herd};
use outputs::total_names;

// The nh3_nlivestock of the herd alone.
fn ammonia_of(h: Herd) -> u64
    requires { Sound (typed_of h) }
    ensures { Own h result }
{
    let figures = herd_figures::figures(herd_inputs::typed_of(h));
    cut_division::magnitude(sums::total(figures, total_names::NH3_NLIVESTOCK))
}

pub fn above(farm: Farm, line: u64) -> Above
    requires { check_farm farm ≡ Accepted }
    ensures { Says line (herds_of farm) result }
{
    let mut sum = 0;
    for i in 0..farm.count {
        let own = ammonia_of(farm.herds[i]);
        sum += own;
        if line < sum {
            return Above::Yes(i + 1);
        }
    }
    Above::No(farm.count)
}
