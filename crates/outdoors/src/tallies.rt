// Days counted one after the other, and what comes of them.
ghost use Rattle.std.specs.Prelude.{◌≡◌};
ghost use Rattle.outdoors.specs.Outdoors.{mean_of};
ghost use Rattle.outdoors.specs.Tallies.{one_if, with_day, outdoors_by, Roomy};

use crate::{Day, Outdoors, Tally};

// 1 for a day with hours.
fn one_if(hours: u8) -> u32
    ensures { result ≡ one_if hours }
{
    u32::from(0 < hours)
}

// One day more; a 29 February does not count.
#[tactic(auto, using(crate::proofs::TallySteps::tally_steps))]
pub fn with_day(t: Tally, d: Day) -> Tally
    requires { Roomy t }
    ensures { result ≡ with_day t d }
{
    if calendar::is_leap_day(d.date) {
        return t;
    }
    Tally {
        grazing_days: t.grazing_days + one_if(d.pasture),
        yard_days: t.yard_days + one_if(d.yard),
        pasture: t.pasture + d.pasture as u32,
    }
}

// The hours of a day, cut to a tenth; 0 where there are no days.
fn mean(tenths: u32, days: u32) -> u32
    ensures { result ≡ mean_of tenths days }
{
    if days == 0 { 0 } else { tenths / days }
}

#[tactic(auto, using(crate::proofs::TallySteps::tally_steps))]
pub fn outdoors(t: Tally) -> Outdoors
    ensures { result ≡ outdoors_by t }
{
    Outdoors {
        grazing_days: t.grazing_days,
        yard_days: t.yard_days,
        grazing_hours: mean(t.pasture, t.grazing_days),
    }
}
