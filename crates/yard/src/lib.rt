// 2.33 and 2.34, and of dairy cows 2.18 and 2.19: days with both, the yard's share of what is excreted, and what
// happens on the yard.
//
// The trap: grazing days and yard days may overlap. Both counts stay as they are, and a day with both has a share of
// its own. A program that tests ranges of days which overlap one after the other, cuts the yard days at what grazing
// leaves of the year, or lets the share of the other yard days stand on days with both, gives summer farms a figure
// that is not theirs.
#![tactic(auto)]

ghost use Rattle.std.specs.Prelude.{◌≡◌, ◌*◌, ◌<◌, ◌^◌};
ghost use Rattle.amounts.specs.Units.{tenths, percent, ten_thousandths, year};
ghost use Rattle.amounts.specs.Dividing.{dividing, uncut};
ghost use Rattle.amounts.specs.Bounds.{WithinMostN, PortionOf, PortionsOf, UpTo};
ghost use Rattle.kinds.specs.Sound.{SoundOutdoor};
ghost use Rattle.yard.specs.Yard.{share_excretion, share_lowered, share_excretion_with_grazing};
ghost use Rattle.yard.specs.Yard.{red_floor_properties, c_floor_properties_exercise_yard, ef_nh3_nyard};
ghost use Rattle.yard.specs.Yard.{yard_time, on_yard, no_yard, handed_yard};
ghost use Rattle.yard.specs.Bounds.{DaysWithBoth};

use amounts::{PERCENT, Parts, TEN_THOUSANDTHS, TENTHS, YEAR};
use cut_division::Quotient;
use kinds::{ExerciseYard, Floor, Outdoor};

#[derive(Clone, Copy, Debug, PartialEq, Eq)]
pub struct Yard {
    pub into: Parts,
    pub nh3_nyard: Quotient,
    pub n_outyard_liquid: u64,
    pub tan_outyard_liquid: u64,
}

// Shares of 2.34, in tenths.
const SHARE_NOT_SUPPLIED: u64 = 1;

pub const SHARE_PARTLY: u64 = 2;

const SHARE_EXCLUSIVELY: u64 = 6;

// Reductions of 2.34, in percent.
const RED_FLOOR_PROPERTIES_SOLID_FLOOR: u64 = 0;

const RED_FLOOR_PROPERTIES_UNPAVED_FLOOR: u64 = 50;

const RED_FLOOR_PROPERTIES_PERFORATED_FLOOR: u64 = 75;

const RED_FLOOR_PROPERTIES_PADDOCK_OR_PASTURE_USED_AS_EXERCISE_YARD: u64 = 90;

// er_yard, in ten-thousandths.
const ER_YARD: u64 = 7000;

// A year in tenths of a day; ten-thousandths of percent of percent.
const YEAR_IN_TENTHS: u64 = TENTHS * YEAR;

const RATE_FLOOR_FREE: u64 = TEN_THOUSANDTHS * PERCENT * PERCENT;

#[tactic(auto, using(crate::proofs::Times::both_left))]
pub fn days_with_grazing_and_yard(o: Outdoor) -> u64
    requires { SoundOutdoor o }
    ensures { DaysWithBoth o result }
{
    (o.grazing_days + o.yard_days).saturating_sub(YEAR)
}

// The share as chosen, by its name: a table, so an arm for each name.
pub fn share_excretion(yard: ExerciseYard) -> u64
    ensures { UpTo tenths (share_excretion yard) result }
{
    match yard {
        ExerciseYard::NotAvailable => 0,
        ExerciseYard::NotSupplied => SHARE_NOT_SUPPLIED,
        ExerciseYard::Partly => SHARE_PARTLY,
        ExerciseYard::Exclusively => SHARE_EXCLUSIVELY,
    }
}

// Whether the share is lowered on days with both.
#[tactic(auto, using(crate::proofs::Times::share_steps))]
pub fn share_lowered(o: Outdoor) -> bool
    requires { SoundOutdoor o }
    ensures { result ≡ share_lowered o }
{
    days_with_grazing_and_yard(o) != 0 && SHARE_PARTLY < share_excretion(o.exercise_yard)
}

// The share on days with both.
#[tactic(auto, using(crate::proofs::Times::share_steps))]
pub fn share_excretion_with_grazing(o: Outdoor) -> u64
    requires { SoundOutdoor o }
    ensures { UpTo tenths (share_excretion_with_grazing o) result }
{
    if share_lowered(o) {
        SHARE_PARTLY
    } else {
        share_excretion(o.exercise_yard)
    }
}

// What a floor takes off the rate, by its name.
fn red_floor_properties(floor: Floor) -> u64
    ensures { UpTo percent (red_floor_properties floor) result }
{
    match floor {
        Floor::Solid => RED_FLOOR_PROPERTIES_SOLID_FLOOR,
        Floor::Unpaved => RED_FLOOR_PROPERTIES_UNPAVED_FLOOR,
        Floor::Perforated => RED_FLOOR_PROPERTIES_PERFORATED_FLOOR,
        Floor::Paddock => RED_FLOOR_PROPERTIES_PADDOCK_OR_PASTURE_USED_AS_EXERCISE_YARD,
    }
}

// 1 less the reduction, in percent.
fn c_floor_properties_exercise_yard(floor: Floor) -> u64
    ensures { result ≡ c_floor_properties_exercise_yard floor }
{
    PERCENT - red_floor_properties(floor)
}

// The part of the year on the yard, in tenths of a day.
#[tactic(auto, using(crate::proofs::Times::yard_time_steps))]
fn yard_time(o: Outdoor) -> u64
    requires { SoundOutdoor o }
    ensures { UpTo (tenths * year) (yard_time o) result }
{
    let both = days_with_grazing_and_yard(o);
    let share = share_excretion(o.exercise_yard);
    let shared = share_excretion_with_grazing(o);
    share * (o.yard_days - both) + shared * both
}

// The part of the TAN on the yard that is emitted, and then the ceiling of 1.
#[tactic(auto, using(crate::proofs::OnYard::yard_rate_steps, kinds::proofs::Leaves::free_steps))]
fn ef_nh3_nyard(o: Outdoor) -> u64
    requires { SoundOutdoor o }
    ensures { UpTo (ten_thousandths * percent * percent) (ef_nh3_nyard o) result }
{
    let floor = c_floor_properties_exercise_yard(o.floor_properties_exercise_yard);
    let left = kinds::free::c_free_factor(o.free_correction_factor);
    (ER_YARD * floor * left).min(RATE_FLOOR_FREE)
}

// What comes onto the yard, of so much N and TAN.
#[tactic(auto, using(amounts::proofs::Amounts::shares_found))]
fn into_yard(o: Outdoor, n: u64, tan: u64) -> Parts
    requires { SoundOutdoor o × WithinMostN n tan }
    ensures { PortionsOf n tan (yard_time o) (tenths * year) result }
{
    amounts::portions(n, tan, yard_time(o), YEAR_IN_TENTHS)
}

// The ammonia from so much TAN on the yard.
#[tactic(auto, using(amounts::proofs::Amounts::shares_found))]
fn nh3_on_yard(o: Outdoor, tan: u64) -> Quotient
    requires { SoundOutdoor o × (tan < 2 ^ 32) }
    ensures { PortionOf tan (ef_nh3_nyard o) (ten_thousandths * percent * percent) result }
{
    amounts::portion(tan, ef_nh3_nyard(o), RATE_FLOOR_FREE)
}

// The yard of a herd that excretes so much N and TAN.
#[tactic(auto, using(crate::proofs::OnYard::yard_made))]
pub fn on_yard(o: Outdoor, n: u64, tan: u64) -> Yard
    requires { SoundOutdoor o × WithinMostN n tan }
    ensures { result ≡ handed_yard (on_yard dividing o (uncut n) (uncut tan)) }
{
    let into = into_yard(o, n, tan);
    let nh3 = nh3_on_yard(o, into.tan.whole);
    Yard {
        into,
        nh3_nyard: nh3,
        n_outyard_liquid: into.n.whole - nh3.whole,
        tan_outyard_liquid: into.tan.whole - nh3.whole,
    }
}

// No yard.
#[tactic(auto, using(crate::proofs::OnYard::yard_made))]
pub fn no_yard() -> Yard
    ensures { result ≡ handed_yard (no_yard dividing) }
{
    let none = cut_division::undivided(0);
    Yard {
        into: Parts { n: none, tan: none },
        nh3_nyard: none,
        n_outyard_liquid: 0,
        tan_outyard_liquid: 0,
    }
}
