// 2.62: N2, NO and N2O from the solid and the liquid fraction of a pig house.
#![tactic(auto)]

ghost use Rattle.std.specs.Prelude.{◌≡◌, ◌≤◌, ◌<◌, ◌^◌};
ghost use Rattle.amounts.specs.Units.{ten_thousandths};
ghost use Rattle.amounts.specs.Dividing.{dividing, uncut};
ghost use Rattle.pig_house.specs.NxOx.{nx_ox, handed_nx_ox};
ghost use Rattle.pig_house.specs.Bounds.{Emitted};

use amounts::TEN_THOUSANDTHS;
use kinds::HousingType;
use pig_amounts::house;
use pig_factors::parameters;
use pig_house::{FromFraction, NxOx};

// What so much N in one fraction emits, at its rates.
fn from_fraction(n: u64, n2: u64, no: u64, n2o: u64) -> FromFraction
    requires { (n < 2 ^ 32) × (n2 ≤ ten_thousandths) × (no ≤ ten_thousandths) × (n2o ≤ ten_thousandths) }
    ensures { Emitted n n2 no n2o result }
{
    FromFraction {
        n2: amounts::portion(n, n2, TEN_THOUSANDTHS),
        no: amounts::portion(n, no, TEN_THOUSANDTHS),
        n2o: amounts::portion(n, n2o, TEN_THOUSANDTHS),
    }
}

// The gases of a house into which so much N goes.
#[tactic(auto, using(pig_house::proofs::Fractions::fraction_steps))]
pub fn nx_ox(housing: HousingType, n: u64) -> NxOx
    requires { n < 2 ^ 32 }
    ensures { result ≡ handed_nx_ox (nx_ox dividing housing (uncut n)) }
{
    let share = parameters::share_liquid(housing);
    let solid = house::all_or_nothing(1 - share, n);
    let liquid = house::all_or_nothing(share, n);
    let r = parameters::rates_of(housing);
    let s = from_fraction(solid, r.er_n2_nsolid, r.er_no_nsolid, r.er_n2o_nsolid);
    let l = from_fraction(liquid, r.er_n2_nliquid, r.er_no_nliquid, r.er_n2o_nliquid);
    NxOx {
        n2_nsolid: s.n2,
        no_nsolid: s.no,
        n2o_nsolid: s.n2o,
        n2_nliquid: l.n2,
        no_nliquid: l.no,
        n2o_nliquid: l.n2o,
    }
}
