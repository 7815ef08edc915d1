// The sections of 001 in one array. A field meets its number here, and nowhere else in the code.
#![tactic(auto)]

ghost use Rattle.std.specs.Prelude.{◌≡◌};
ghost use Rattle.outputs.specs.Grams.{grams_in, GramsTo, figure_most};

use outputs::{Figures, Sections};

pub fn by_number(s: Sections) -> Figures
    requires { GramsTo figure_most (grams_in s) }
    ensures { result.grams ≡ grams_in s }
{
    Figures {
        grams: [
            s.excretion.n_excretion as i64,
            s.excretion.tan_excretion.whole as i64,
            s.yard.into.n.whole as i64,
            s.yard.into.tan.whole as i64,
            s.yard.nh3_nyard.whole as i64,
            s.yard.n_outyard_liquid as i64,
            s.yard.tan_outyard_liquid as i64,
            s.grazing.into.n.whole as i64,
            s.grazing.into.tan.whole as i64,
            s.grazing.gases.nh3.whole as i64,
            s.grazing.gases.n2.whole as i64,
            s.grazing.gases.no.whole as i64,
            s.grazing.gases.n2o.whole as i64,
            s.grazing.n_remain_grazing as i64,
            s.grazing.tan_remain_grazing,
            s.housing.n_into_housing as i64,
            s.housing.tan_into_housing as i64,
            s.housing.nh3_nhousing.whole as i64,
            s.housing.n_outhousing as i64,
            s.housing.tan_outhousing as i64,
            s.pig_house
                .scrubbed
                .times_ef_housing_indoor_before_air_scrubber
                .whole as i64,
            s.pig_house.n_outhousing_liquid as i64,
            s.pig_house.tan_outhousing_liquid as i64,
            s.pig_house.n_outhousing_solid as i64,
            s.pig_house.tan_outhousing_solid as i64,
            s.nx_ox.n2_nsolid.whole as i64,
            s.nx_ox.no_nsolid.whole as i64,
            s.nx_ox.n2o_nsolid.whole as i64,
            s.nx_ox.n2_nliquid.whole as i64,
            s.nx_ox.no_nliquid.whole as i64,
            s.nx_ox.n2o_nliquid.whole as i64,
        ],
    }
}
