// The figures of all herds of an accepted farm, added up.
#![tactic(auto)]

ghost use Rattle.std.specs.Prelude.{◌≡◌};
ghost use Rattle.checks.specs.Checks.{check_farm};
ghost use Rattle.model.specs.Answers.{Added};
ghost use Rattle.farm.specs.Answers.{Accepted};

use farm::Farm;
use outputs::Figures;

pub fn sum_of(farm: Farm) -> Figures
    requires { check_farm farm ≡ Accepted }
    ensures { Added farm result }
{
    let mut sum = sums::no_figures();
    for i in 0..farm.count {
        let h = farm.herds[i];
        sum = sums::plus(sum, herd_figures::figures(herd_inputs::typed_of(h)));
    }
    sum
}
