// What is decided of a step (02, W11): 01's refusals of the farm's record, then the rules of a step in their order.
#![tactic(auto)]

ghost use Rattle.std.specs.Prelude.{◌≡◌, ◌≤◌, min, leb};
ghost use Rattle.base.specs.First.{first};
ghost use Rattle.farm.specs.Limits.{herds_most};
ghost use Rattle.checks.specs.Checks.{herds_of};
ghost use Rattle.books.specs.Rules.{rules, tests, decided_of, Done};
ghost use Rattle.book_rules.specs.Parts.{herd_tests, add_tests, replace_tests, remove_tests};

use base::refusals::Refused;
use books::{Decided, Step, StepRefusal};
use farm::{Farm, HERDS_MOST, Herd, Refusal, labels};
use outputs::Totals;

// The rules of the herd that is handed in: 12, then 7.
fn decide_herd(h: Herd) -> Decided
    ensures { result ≡ first (herd_tests h) Done }
{
    if herd_tests::lacks_input(h) {
        Err(StepRefusal::Record(Refusal::InputMissing))
    } else if fits::has_unfit(h) {
        Err(StepRefusal::Record(Refusal::BadValue))
    } else {
        Ok(())
    }
}

// Has a farm of so many herds no room for another, in an array of `room` entries?
fn is_full(count: usize, room: usize) -> bool
    ensures { result ≡ leb (min room herds_most) count }
{
    HERDS_MOST <= count || room <= count
}

// The rules behind those that every step has, of a herd to be added to `count` herds, of which one has its label or
// none: 8, 9, then its own.
fn decide_add(present: bool, count: usize, room: usize, h: Herd) -> Decided
    ensures { result ≡ first (add_tests present count room h) Done }
{
    if present {
        Err(StepRefusal::Record(Refusal::EarlierLabel))
    } else if is_full(count, room) {
        Err(StepRefusal::Record(Refusal::NoRoomForHerd))
    } else {
        decide_herd(h)
    }
}

// Of a herd to be put in the place of the one of its label: 15, then its own.
fn decide_replace(present: bool, h: Herd) -> Decided
    ensures { result ≡ first (replace_tests present h) Done }
{
    if present {
        decide_herd(h)
    } else {
        Err(StepRefusal::NotPresent)
    }
}

// Of a herd to be taken out: 15.
fn decide_remove(present: bool) -> Decided
    ensures { result ≡ first (remove_tests present) Done }
{
    if present {
        Ok(())
    } else {
        Err(StepRefusal::NotPresent)
    }
}

// All rules of a step: 16 and 4, then those that depend on the step.
fn decide_step(farm: Farm, room: usize, totals: Totals, step: Step, h: Herd) -> Decided
    requires { farm.count ≤ herds_most }
    ensures { result ≡ first (tests step (rules room h (herds_of farm) totals)) Done }
{
    if book_totals::is_beyond(totals) {
        return Err(StepRefusal::TotalTooLarge);
    }
    if !labels::label_ok(h.label) {
        return Err(StepRefusal::Record(Refusal::BadLabel));
    }
    let present = herd_tests::earlier_label(&farm.herds[..farm.count], h.label);
    match step {
        Step::Add => decide_add(present, farm.count, room, h),
        Step::Replace => decide_replace(present, h),
        Step::Remove => decide_remove(present),
    }
}

// The farm's record first.
pub fn decide(farm: Farm, room: usize, totals: Totals, step: Step, h: Herd) -> Decided
    ensures { result ≡ decided_of farm room totals step h }
{
    match checks::check_farm(farm) {
        Ok(()) => decide_step(farm, room, totals, step, h),
        Err(Refused(refusal, _)) => Err(StepRefusal::Record(refusal)),
    }
}
