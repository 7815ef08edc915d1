// 2.51: what goes into a pig house, is emitted there or kept back, and leaves it as slurry or as solid manure.
ghost use Rattle.std.specs.Prelude.{◌≡◌, ◌<◌, ◌^◌};
ghost use Rattle.amounts.specs.Units.{billionths};
ghost use Rattle.amounts.specs.Arithmetic.{cutting};
ghost use Rattle.amounts.specs.Dividing.{dividing, uncut};
ghost use Rattle.amounts.specs.Bounds.{PortionOf, UpTo};
ghost use Rattle.kinds.specs.Sound.{SoundPigs};
ghost use Rattle.housing.specs.Housing.{no_factors, handed_housing};
ghost use Rattle.pig_house.specs.PigHouse.{all_or_nothing, ef_nh3_nhousing, in_fractions, pig_housing, pig_house};
ghost use Rattle.pig_house.specs.PigHouse.{pig_factors, kept_back, handed_scrubbed, handed_pig_house};
ghost use Rattle.pig_house.specs.Bounds.{Enters};

use crate::scrubber;
use amounts::BILLIONTHS;
use cut_division::Quotient;
use housing::Housing;
use kinds::Pigs;
use pig_factors::{factors, parameters};
use pig_house::{InPigHouse, PigHouse, Scrubbed};

// An amount times 1 or 0.
#[tactic(auto, using(pig_house::proofs::Fractions::fraction_steps))]
pub fn all_or_nothing(share: u64, amount: u64) -> u64
    ensures { UpTo amount (all_or_nothing cutting share amount) result }
{
    if share == 0 { 0 } else { amount }
}

// The ammonia from so much TAN in the house.
#[tactic(auto, using(amounts::proofs::Amounts::shares_found))]
fn nh3_in_pig_house(p: Pigs, tan: u64) -> Quotient
    requires { SoundPigs p × (tan < 2 ^ 32) }
    ensures { PortionOf tan (ef_nh3_nhousing cutting p) billionths result }
{
    amounts::portion(tan, factors::ef_nh3_nhousing(p), BILLIONTHS)
}

// The two fractions of so much N and TAN that leaves the house.
#[tactic(auto, using(pig_house::proofs::Fractions::fraction_steps))]
fn in_fractions(p: Pigs, scrubbed: Scrubbed, n: u64, tan: u64) -> PigHouse
    requires { SoundPigs p }
    ensures { result ≡ handed_pig_house (pig_factors dividing p) scrubbed
        (in_fractions dividing p.housing_type
        (uncut scrubbed.times_ef_housing_indoor_before_air_scrubber.whole) (uncut n) (uncut tan)) }
{
    let share = parameters::share_liquid(p.housing_type);
    let n_liquid = all_or_nothing(share, n);
    let tan_liquid = all_or_nothing(share, tan);
    PigHouse {
        factors: factors::factors_of(p),
        scrubbed,
        n_outhousing_liquid: n_liquid,
        tan_outhousing_liquid: tan_liquid,
        n_outhousing_solid: n - n_liquid,
        tan_outhousing_solid: tan - tan_liquid,
    }
}

// The house of a herd that excretes so much TAN, into which so much N and TAN goes.
#[tactic(auto, using(pig_house::proofs::Through::house_steps))]
pub fn in_pig_house(p: Pigs, excreted: u64, n: u64, tan: u64) -> InPigHouse
    requires { SoundPigs p × Enters p excreted n tan }
    ensures housing { result.housing
        ≡ handed_housing (no_factors dividing) (pig_housing dividing p (uncut excreted) (uncut n) (uncut tan)) }
    ensures fractions { result.pig_house
        ≡ handed_pig_house (pig_factors dividing p) (handed_scrubbed (kept_back dividing p (uncut excreted)))
        (pig_house dividing p (uncut excreted) (uncut n) (uncut tan)) }
{
    let nh3 = nh3_in_pig_house(p, tan);
    let scrubbed = scrubber::kept_back(p, excreted);
    let kept = scrubbed.times_ef_housing_indoor_before_air_scrubber.whole;
    let n_out = n - nh3.whole - kept;
    let tan_out = tan - nh3.whole - kept;
    let housing = Housing {
        n_into_housing: n,
        tan_into_housing: tan,
        factors: housing::no_factors(),
        nh3_nhousing: nh3,
        n_outhousing: n_out,
        tan_outhousing: tan_out,
    };
    InPigHouse {
        housing,
        pig_house: in_fractions(p, scrubbed, n_out, tan_out),
    }
}
