// What a record does to the herd being read: it adds an input to it, begins another, or is refused with 10 or 11.
#![tactic(auto)]

ghost use Rattle.std.specs.Prelude.{◌≡◌, ◌<◌};
ghost use Rattle.farm.specs.Limits.{slots};
ghost use Rattle.records.specs.Entries.{HasSlot};
ghost use Rattle.progress.specs.Herds.{new_herd, has_input, adding_to, effect_of};

use farm::{Given, Herd, Label, Refusal, SLOTS, Slot, herds, labels};
use inputs::Kind;
use records::Entry;

// What comes next does to the herd being read: it is a record that adds to it, that begins another, or that is wrong;
// or the file ends.
#[derive(Clone, Copy, Debug, PartialEq, Eq)]
pub enum Effect {
    Adds,
    Begins,
    Wrong(Refusal),
    Ends,
}

// The effect, and the herd that is being read then.
#[derive(Clone, Copy, Debug, PartialEq, Eq)]
pub struct HerdAfter {
    pub effect: Effect,
    pub herd: Herd,
}

// A herd of which this is the first record.
fn new_herd(label: Label, kind: Kind, slot: usize, given: Given) -> Herd
    requires { slot < slots }
    ensures { result ≡ new_herd label kind slot given }
{
    let mut herd = Herd {
        label,
        kind,
        slots: [Slot {
            given: Given::Missing,
        }; SLOTS],
    };
    herd.slots[slot] = Slot { given };
    herd
}

// Has the herd a value in the slot already?
fn has_input(h: Herd, slot: usize) -> bool
    requires { slot < slots }
    ensures { result ≡ has_input h slot }
{
    !herds::is_missing(h.slots[slot].given)
}

// A record of the herd's own label: 10, 11, or one input more.
#[tactic(auto, unfolding(crate::specs::Herds::adding_to, crate::specs::Herds::with_input))]
fn adding_to(h: Herd, kind: Kind, slot: usize, given: Given) -> HerdAfter
    requires { slot < slots }
    ensures { result ≡ adding_to h kind slot given }
{
    if h.kind != kind {
        return HerdAfter {
            effect: Effect::Wrong(Refusal::OtherKind),
            herd: h,
        };
    }
    if has_input(h, slot) {
        return HerdAfter {
            effect: Effect::Wrong(Refusal::GivenAlready),
            herd: h,
        };
    }
    let mut herd = h;
    herd.slots[slot] = Slot { given };
    HerdAfter {
        effect: Effect::Adds,
        herd,
    }
}

pub fn effect_of(h: Herd, entry: Entry) -> HerdAfter
    requires { HasSlot entry.read }
    ensures { result ≡ effect_of h entry }
{
    match entry.read {
        Err(refusal) => HerdAfter {
            effect: Effect::Wrong(refusal),
            herd: h,
        },
        Ok((kind, slot, given)) => {
            if labels::same_label(h.label, entry.label) {
                adding_to(h, kind, slot, given)
            } else {
                HerdAfter {
                    effect: Effect::Begins,
                    herd: new_herd(entry.label, kind, slot, given),
                }
            }
        }
    }
}
