// 2.18, 2.33, 2.60 and 2.86: what a free factor leaves of the emission, in percent: 1 less the factor. A factor below
// zero makes more of it (02, W3).
ghost use Rattle.std.specs.Prelude.{◌+◌, ◌≤◌, nat_abs};
ghost use Rattle.amounts.specs.Units.{percent};
ghost use Rattle.amounts.specs.Bounds.{UpTo};
ghost use Rattle.kinds.specs.Free.{c_free_factor};

use amounts::PERCENT;

#[tactic(auto, using(crate::proofs::Leaves::leaves_steps))]
pub fn c_free_factor(free: i64) -> u64
    requires { nat_abs free ≤ percent }
    ensures { UpTo (percent + percent) (c_free_factor free) result }
{
    if free < 0 {
        PERCENT + cut_division::magnitude(free)
    } else {
        PERCENT - cut_division::magnitude(free)
    }
}
