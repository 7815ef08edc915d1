// 01's list of inputs, once: for each kind of herd its inputs, each with its name and how its value reads. The reader
// and the record checks go by it. An input is known by its kind and its slot, its place among the inputs of the kind. A
// new input is an arm of its kind's function and a row in specs/Inputs.antt, at the end of its kind's, and its module's
// stretch in crate `finding`; a new name or module is a row in crate `words`.
#![tactic(auto)]

pub mod slots; // the slots by name, and how many they are

ghost use Rattle.std.specs.Prelude.{◌≡◌};
ghost use Rattle.inputs.specs.declared.Kind.TheVariants.{Roughage, Cattle, Pigs, DairyCow};
ghost use Rattle.inputs.specs.Inputs.{number_of, same_kind, count_of, row_at, form_of};
ghost use Rattle.inputs.specs.Numbered.{numbered};

use names::ValueList;
use words::input_names;

// The four kinds of herd.
#[derive(Clone, Copy, Debug, PartialEq, Eq)]
pub enum Kind {
    Roughage,
    Cattle,
    Pigs,
    DairyCow,
}

// How a value reads: a number, by its decimals and the most it may be in units of the last decimal; such a number for
// which `standard` may stand; one for which it may not, refusal 6; a whole number that may be below zero, by the most
// that it may be on either side; or a name of a list.
#[derive(Clone, Copy, Debug, PartialEq, Eq)]
pub enum Form {
    Number(usize, u32),
    OrStandard(usize, u32),
    NoStandard(usize, u32),
    Signed(u16),
    OneOf(ValueList),
}

// 01, "Ranges".
const HEAD_COUNT: Form = Form::Number(0, 10000);

const KILOGRAMS_OR_STANDARD: Form = Form::OrStandard(3, 200000);

const KILOGRAMS: Form = Form::NoStandard(3, 200000);

const PERCENTAGE_OR_STANDARD: Form = Form::OrStandard(2, 10000);

const PERCENTAGE: Form = Form::NoStandard(2, 10000);

// 02, W3.
const REDUCTION: Form = Form::Signed(100);

const DAYS: Form = Form::Number(0, 365);

const HOURS: Form = Form::Number(1, 240);

const CATEGORY: Form = Form::OneOf(ValueList::Categories);

const YARD: Form = Form::OneOf(ValueList::Yards);

const FLOOR: Form = Form::OneOf(ValueList::Floors);

const HOUSING_TYPE: Form = Form::OneOf(ValueList::HousingTypes);

const AIR_SCRUBBER: Form = Form::OneOf(ValueList::AirScrubbers);

const HOUSING_FLOOR: Form = Form::OneOf(ValueList::HousingFloors);

const HOUSING_AIR: Form = Form::OneOf(ValueList::HousingAirs);

// The number of a kind, by which tables have its own. A match and no cast: each number stands beside its name.
pub fn number_of(kind: Kind) -> usize
    ensures { result ≡ number_of kind }
{
    match kind {
        Kind::Roughage => 0,
        Kind::Cattle => 1,
        Kind::Pigs => 2,
        Kind::DairyCow => 3,
    }
}

pub fn same_kind(a: Kind, b: Kind) -> bool
    ensures { result ≡ same_kind a b }
{
    a == b
}

// How many inputs a kind has.
pub fn count_of(kind: Kind) -> usize
    ensures { result ≡ count_of kind }
{
    match kind {
        Kind::Roughage => slots::ROUGHAGE_COUNT,
        Kind::Cattle => slots::CATTLE_COUNT,
        Kind::Pigs => slots::PIGS_COUNT,
        Kind::DairyCow => slots::CATTLE_COUNT,
    }
}

// An input: the place of its name among the input names, and the form of its value.
#[derive(Clone, Copy, Debug, PartialEq, Eq)]
pub struct Input(pub usize, pub Form);

// The inputs of each kind, by their slots; past the last slot the last input stands.
fn roughage(slot: usize) -> Input
    ensures { result ≡ numbered (row_at Roughage slot) }
{
    match slot {
        0 => Input(input_names::ANIMALCATEGORY, CATEGORY),
        1 => Input(input_names::ANIMALS, HEAD_COUNT),
        2 => Input(input_names::INP_N_EXCRETION, KILOGRAMS_OR_STANDARD),
        3 => Input(input_names::TAN_FRACTION, PERCENTAGE_OR_STANDARD),
        4 => Input(input_names::FREE_CORRECTION_FACTOR, REDUCTION),
        5 => Input(input_names::GRAZING_DAYS, DAYS),
        _ => Input(input_names::GRAZING_HOURS, HOURS),
    }
}

fn cattle(slot: usize) -> Input
    ensures { result ≡ numbered (row_at Cattle slot) }
{
    match slot {
        0 => Input(input_names::ANIMALS, HEAD_COUNT),
        1 => Input(input_names::INP_N_EXCRETION, KILOGRAMS),
        2 => Input(input_names::TAN_FRACTION, PERCENTAGE),
        3 => Input(input_names::YARD_DAYS, DAYS),
        4 => Input(input_names::EXERCISE_YARD, YARD),
        5 => Input(input_names::FLOOR_PROPERTIES_EXERCISE_YARD, FLOOR),
        6 => Input(input_names::FREE_CORRECTION_FACTOR, REDUCTION),
        7 => Input(input_names::GRAZING_DAYS, DAYS),
        _ => Input(input_names::GRAZING_HOURS, HOURS),
    }
}

fn pigs(slot: usize) -> Input
    ensures { result ≡ numbered (row_at Pigs slot) }
{
    match slot {
        0 => Input(input_names::ANIMALS, HEAD_COUNT),
        1 => Input(input_names::INP_N_EXCRETION, KILOGRAMS),
        2 => Input(input_names::TAN_FRACTION, PERCENTAGE),
        3 => Input(input_names::HOUSING_TYPE, HOUSING_TYPE),
        4 => Input(input_names::AIR_SCRUBBER, AIR_SCRUBBER),
        5 => Input(input_names::MITIGATION_HOUSING_FLOOR, HOUSING_FLOOR),
        6 => Input(input_names::MITIGATION_HOUSING_AIR, HOUSING_AIR),
        _ => Input(input_names::FREE_CORRECTION_FACTOR, REDUCTION),
    }
}

// Those of other cattle, but for the `standard` of TAN.
fn dairy_cow(slot: usize) -> Input
    ensures { result ≡ numbered (row_at DairyCow slot) }
{
    match slot {
        2 => Input(input_names::TAN_FRACTION, PERCENTAGE_OR_STANDARD),
        _ => cattle(slot),
    }
}

pub fn input_at(kind: Kind, slot: usize) -> Input
    ensures { result ≡ numbered (row_at kind slot) }
{
    match kind {
        Kind::Roughage => roughage(slot),
        Kind::Cattle => cattle(slot),
        Kind::Pigs => pigs(slot),
        Kind::DairyCow => dairy_cow(slot),
    }
}

// The form of the input in a slot.
pub fn form_of(kind: Kind, slot: usize) -> Form
    ensures { result ≡ form_of kind slot }
{
    input_at(kind, slot).1
}
