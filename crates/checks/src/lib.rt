// 01's checks of a record that is handed in, in their order, always with record 0. A record of any content is answered.
#![tactic(auto)]

ghost use Rattle.std.specs.Prelude.{◌≡◌};
ghost use Rattle.base.specs.First.{first};
ghost use Rattle.checks.specs.Checks.{input_tests, check_herd, check_farm};
ghost use Rattle.farm.specs.Answers.{Accepted};

use base::refusals::Refused;
use farm::{Checked, Farm, HERDS_MOST, Herd, Refusal, labels, prints};

// The checks of a herd's inputs: 12, then 7.
fn check_inputs(h: Herd) -> Checked
    ensures { result ≡ first (input_tests h) Accepted }
{
    if herd_tests::lacks_input(h) {
        return Err(Refused(Refusal::InputMissing, 0));
    }
    if fits::has_unfit(h) {
        return Err(Refused(Refusal::BadValue, 0));
    }
    Ok(())
}

// A herd by itself: 4, 12, 7.
pub fn check_herd(h: Herd) -> Checked
    ensures { result ≡ check_herd h }
{
    if !labels::label_ok(h.label) {
        return Err(Refused(Refusal::BadLabel, 0));
    }
    check_inputs(h)
}

// A farm: 9, then herd by herd 4, 8, 12, 7. A label is compared with those before it only where one of them has its
// print.
pub fn check_farm(farm: Farm) -> Checked
    ensures { result ≡ check_farm farm }
{
    if HERDS_MOST < farm.count {
        return Err(Refused(Refusal::NoRoomForHerd, 0));
    }
    let mut prints = [0u32; HERDS_MOST];
    for i in 0..farm.count {
        let h = farm.herds[i];
        if !labels::label_ok(h.label) {
            return Err(Refused(Refusal::BadLabel, 0));
        }
        let print = prints::print_of(h.label);
        if herd_tests::has_print(&prints[..i], print)
            && herd_tests::earlier_label(&farm.herds[..i], h.label)
        {
            return Err(Refused(Refusal::EarlierLabel, 0));
        }
        prints[i] = print;
        check_inputs(h)?;
    }
    Ok(())
}
