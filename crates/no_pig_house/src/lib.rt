// What a kind of herd without a pig house has in its place: nothing is divided, emitted, kept back or handed on.
#![tactic(auto)]

ghost use Rattle.std.specs.Prelude.{◌≡◌};
ghost use Rattle.amounts.specs.Dividing.{dividing};
ghost use Rattle.pig_house.specs.PigHouse.{no_pig_factors, no_scrubbed, no_pig_house};
ghost use Rattle.pig_house.specs.PigHouse.{handed_pig_factors, handed_scrubbed, handed_pig_house};
ghost use Rattle.pig_house.specs.NxOx.{no_nx_ox, handed_nx_ox};

use pig_house::{NxOx, PigFactors, PigHouse, Scrubbed};

#[tactic(auto, using(pig_house::proofs::Factor::no_factors_steps))]
pub fn no_pig_factors() -> PigFactors
    ensures { result ≡ handed_pig_factors (no_pig_factors dividing) }
{
    let none = cut_division::undivided(0);
    PigFactors {
        before_times_c_free_factor_housing: none,
        before_times_red_housing_air: none,
        ef_housing_indoor: none,
        grazing_times_c_free_factor_housing: none,
        times_ef_housing_indoor: none,
        times_ef_housing_grazing: none,
    }
}

// Where a scrubber keeps nothing back, too.
#[tactic(auto, using(pig_house::proofs::Through::none_scrubbed))]
pub fn no_scrubbed() -> Scrubbed
    ensures { result ≡ handed_scrubbed (no_scrubbed dividing) }
{
    let none = cut_division::undivided(0);
    Scrubbed {
        times_tan_excretion: none,
        times_ef_housing_indoor_before_air_scrubber: none,
    }
}

#[tactic(auto, using(pig_house::proofs::Fractions::fraction_steps))]
pub fn no_pig_house() -> PigHouse
    ensures { result ≡ handed_pig_house (no_pig_factors dividing) (handed_scrubbed (no_scrubbed dividing))
        (no_pig_house dividing) }
{
    PigHouse {
        factors: no_pig_factors(),
        scrubbed: no_scrubbed(),
        n_outhousing_liquid: 0,
        tan_outhousing_liquid: 0,
        n_outhousing_solid: 0,
        tan_outhousing_solid: 0,
    }
}

#[tactic(auto, using(pig_house::proofs::Fractions::fraction_steps))]
pub fn no_nx_ox() -> NxOx
    ensures { result ≡ handed_nx_ox (no_nx_ox dividing) }
{
    let none = cut_division::undivided(0);
    NxOx {
        n2_nsolid: none,
        no_nsolid: none,
        n2o_nsolid: none,
        n2_nliquid: none,
        no_nliquid: none,
        n2o_nliquid: none,
    }
}
