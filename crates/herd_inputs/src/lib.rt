// A herd's record as the complete inputs of its kind, each from the slot of its name.
#![tactic(auto)]

ghost use Rattle.std.specs.Prelude.{◌≡◌};
ghost use Rattle.inputs.specs.declared.Kind.TheVariants as kinds;
ghost use Rattle.typed_inputs.specs.Typed.{given_named, tan_in, roughage_of, outdoor_of, cattle_of, pigs_of, typed_of};

use farm::Herd;
use inputs::{Kind, slots};
use kinds::{Cattle, CattleKind, Entered, Inputs, Outdoor, Pigs, Roughage, choices};

fn roughage_of(h: Herd) -> Roughage
    ensures { result ≡ roughage_of h }
{
    Roughage {
        animalcategory: slot_values::number_at(h, slots::ROUGHAGE_ANIMALCATEGORY),
        animals: slot_values::number_at(h, slots::ROUGHAGE_ANIMALS),
        inp_n_excretion: slot_values::entered_at(h, slots::ROUGHAGE_INP_N_EXCRETION),
        tan_fraction: slot_values::entered_at(h, slots::ROUGHAGE_TAN_FRACTION),
        free_correction_factor: slot_values::signed_at(h, slots::ROUGHAGE_FREE_CORRECTION_FACTOR),
        grazing_days: slot_values::number_at(h, slots::ROUGHAGE_GRAZING_DAYS),
        grazing_hours: slot_values::number_at(h, slots::ROUGHAGE_GRAZING_HOURS),
    }
}

// The module `Outdoor`, in the same slots for both kinds that have it.
fn outdoor_of(h: Herd) -> Outdoor
    ensures { result ≡ outdoor_of kinds.Cattle h }
{
    Outdoor {
        yard_days: slot_values::number_at(h, slots::CATTLE_YARD_DAYS),
        exercise_yard: choices::yard_at(slot_values::number_at(h, slots::CATTLE_EXERCISE_YARD)),
        floor_properties_exercise_yard: choices::floor_at(slot_values::number_at(
            h,
            slots::CATTLE_FLOOR_PROPERTIES_EXERCISE_YARD,
        )),
        free_correction_factor: slot_values::signed_at(h, slots::CATTLE_FREE_CORRECTION_FACTOR),
        grazing_days: slot_values::number_at(h, slots::CATTLE_GRAZING_DAYS),
        grazing_hours: slot_values::number_at(h, slots::CATTLE_GRAZING_HOURS),
    }
}

fn tan_of(kind: CattleKind, h: Herd) -> Entered
    ensures { result ≡ tan_in kind (given_named kinds.Cattle "tan_fraction" h) }
{
    match kind {
        CattleKind::OtherCattle => Entered::Number(slot_values::number_at(
            h,
            slots::CATTLE_TAN_FRACTION,
        )),
        CattleKind::DairyCow => slot_values::entered_at(h, slots::CATTLE_TAN_FRACTION),
    }
}

// Other cattle and dairy cows: one list of inputs.
fn cattle_of(kind: CattleKind, h: Herd) -> Cattle
    ensures { result ≡ cattle_of kind h }
{
    Cattle {
        kind,
        animals: slot_values::number_at(h, slots::CATTLE_ANIMALS),
        inp_n_excretion: slot_values::number_at(h, slots::CATTLE_INP_N_EXCRETION),
        tan_fraction: tan_of(kind, h),
        outdoor: outdoor_of(h),
    }
}

fn pigs_of(h: Herd) -> Pigs
    ensures { result ≡ pigs_of h }
{
    Pigs {
        animals: slot_values::number_at(h, slots::PIGS_ANIMALS),
        inp_n_excretion: slot_values::number_at(h, slots::PIGS_INP_N_EXCRETION),
        tan_fraction: slot_values::number_at(h, slots::PIGS_TAN_FRACTION),
        housing_type: choices::housing_at(slot_values::number_at(h, slots::PIGS_HOUSING_TYPE)),
        air_scrubber: choices::scrubber_at(slot_values::number_at(h, slots::PIGS_AIR_SCRUBBER)),
        mitigation_housing_floor: choices::housing_floor_at(slot_values::number_at(
            h,
            slots::PIGS_MITIGATION_HOUSING_FLOOR,
        )),
        mitigation_housing_air: choices::housing_air_at(slot_values::number_at(
            h,
            slots::PIGS_MITIGATION_HOUSING_AIR,
        )),
        free_correction_factor: slot_values::signed_at(h, slots::PIGS_FREE_CORRECTION_FACTOR),
    }
}

pub fn typed_of(h: Herd) -> Inputs
    ensures { result ≡ typed_of h }
{
    match h.kind {
        Kind::Roughage => Inputs::Roughage(roughage_of(h)),
        Kind::Cattle => Inputs::Cattle(cattle_of(CattleKind::OtherCattle, h)),
        Kind::Pigs => Inputs::Pigs(pigs_of(h)),
        Kind::DairyCow => Inputs::Cattle(cattle_of(CattleKind::DairyCow, h)),
    }
}
