// The quotients of the sections by number. A quotient meets its number here, and nowhere else in the code.
#![tactic(auto)]

ghost use Rattle.std.specs.Prelude.{◌≡◌};
ghost use Rattle.cuts.specs.Cuts.{in_order, cuts_from, no_cuts};

use cut_division::Quotient;
use cuts::{Cuts, names};
use outputs::Sections;

// What was cut off of each quotient and its divisor, in their order.
fn of_quotients(quotients: &[Quotient; names::COUNT]) -> Cuts
    ensures { result ≡ cuts_from quotients.now }
{
    let mut cuts = no_cuts();
    for i in 0..names::COUNT {
        cuts.cut_off[i] = quotients[i].cut_off;
        cuts.divisor[i] = quotients[i].divisor;
    }
    cuts
}

pub fn by_number(s: Sections) -> Cuts
    ensures { result ≡ cuts_from (in_order s) }
{
    let pig_factors = s.pig_house.factors;
    let scrubbed = s.pig_house.scrubbed;
    of_quotients(&[
        s.excretion.tan_excretion,
        s.yard.into.n,
        s.yard.into.tan,
        s.yard.nh3_nyard,
        s.grazing.into.n,
        s.grazing.into.tan,
        s.grazing.gases.nh3,
        s.grazing.gases.n2,
        s.grazing.gases.no,
        s.grazing.gases.n2o,
        s.housing.factors.c_grazing,
        s.housing.factors.times_er_housing,
        s.housing.factors.times_c_free_factor_housing,
        pig_factors.before_times_c_free_factor_housing,
        pig_factors.before_times_red_housing_air,
        pig_factors.ef_housing_indoor,
        pig_factors.grazing_times_c_free_factor_housing,
        pig_factors.times_ef_housing_indoor,
        pig_factors.times_ef_housing_grazing,
        s.housing.nh3_nhousing,
        scrubbed.times_tan_excretion,
        scrubbed.times_ef_housing_indoor_before_air_scrubber,
        s.nx_ox.n2_nsolid,
        s.nx_ox.no_nsolid,
        s.nx_ox.n2o_nsolid,
        s.nx_ox.n2_nliquid,
        s.nx_ox.no_nliquid,
        s.nx_ox.n2o_nliquid,
    ])
}

// No cut was made.
pub fn no_cuts() -> Cuts
    ensures { result ≡ no_cuts }
{
    Cuts {
        cut_off: [0; names::COUNT],
        divisor: [0; names::COUNT],
    }
}
