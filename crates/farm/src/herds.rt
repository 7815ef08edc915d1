// Herds and farms that say nothing, and what says nothing in a slot.
ghost use Rattle.std.specs.Prelude.{◌≡◌};
ghost use Rattle.farm.specs.Herds.{is_missing, no_herd, no_farm};

use crate::{Farm, Given, HERDS_MOST, Herd, SLOTS, Slot, labels};
use inputs::Kind;

pub fn is_missing(given: Given) -> bool
    ensures { result ≡ is_missing given }
{
    matches!(given, Given::Missing)
}

pub fn no_herd() -> Herd
    ensures { result ≡ no_herd }
{
    Herd {
        label: labels::no_label(),
        kind: Kind::Roughage,
        slots: [Slot {
            given: Given::Missing,
        }; SLOTS],
    }
}

pub fn no_farm() -> Farm
    ensures { result ≡ no_farm }
{
    Farm {
        herds: [no_herd(); HERDS_MOST],
        count: 0,
    }
}
