// 02, W2: the first reason whose fact holds in a herd's inputs, with the number of days and the share that follows.
#![tactic(auto)]

pub mod answers; // from a herd's record

ghost use Rattle.std.specs.Prelude.{◌≡◌};
ghost use Rattle.kinds.specs.Sound.{SoundOutdoor, Sound};
ghost use Rattle.reasons.specs.Reasons.{is_not_available, reason_of, share_from, why_of, told_of};

use kinds::{ExerciseYard, Inputs, Outdoor};
use reasons::{Reason, Why};

fn is_not_available(yard: ExerciseYard) -> bool
    ensures { result ≡ is_not_available yard }
{
    matches!(yard, ExerciseYard::NotAvailable)
}

// The first whose fact holds.
pub fn reason_of(o: Outdoor) -> Reason
    requires { SoundOutdoor o }
    ensures { result ≡ reason_of o }
{
    if yard::days_with_grazing_and_yard(o) == 0 {
        Reason::NoSuchDays
    } else if is_not_available(o.exercise_yard) {
        Reason::NotAvailable
    } else if yard::share_excretion(o.exercise_yard) <= yard::SHARE_PARTLY {
        Reason::AsChosen
    } else {
        Reason::Lowered
    }
}

// The share on days with both, by the reason and the chosen share.
fn share_from(reason: Reason, chosen: u64) -> u64
    ensures { result ≡ share_from reason chosen }
{
    match reason {
        Reason::NoSuchDays | Reason::AsChosen => chosen,
        Reason::NotAvailable => 0,
        Reason::Lowered => yard::SHARE_PARTLY,
    }
}

pub fn why_of(o: Outdoor) -> Why
    requires { SoundOutdoor o }
    ensures { result ≡ why_of o }
{
    let reason = reason_of(o);
    let chosen = yard::share_excretion(o.exercise_yard);
    Why {
        reason,
        days: yard::days_with_grazing_and_yard(o),
        chosen,
        share: share_from(reason, chosen),
    }
}

// A kind with the module `Outdoor` is told the reason; the others have no yard.
pub fn told_of(inputs: Inputs) -> Option<Why>
    requires { Sound inputs }
    ensures { result ≡ told_of inputs }
{
    match inputs {
        Inputs::Cattle(c) => Some(why_of(c.outdoor)),
        Inputs::Roughage(_) | Inputs::Pigs(_) => None,
    }
}
