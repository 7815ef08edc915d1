// An entry of an array: the one that fills it before a file is read, whether it is that one still, and a checksum to
// which every other adds its place, its label, its kind and its slots.
#![tactic(auto)]

use farm::{Given, Herd, LABEL_MOST, Label, SLOTS, Slot};
use inputs::Kind;

// What the checksum is the remainder of, the largest prime below 2^32, and what each number more multiplies it by.
const PRIME: u64 = 4294967291;

const FACTOR: u64 = 65599;

// No file gives such an entry: its label has quotes, and no value is so large.
pub fn filler() -> Herd {
    Herd {
        label: Label {
            bytes: [b'"'; LABEL_MOST],
            len: LABEL_MOST,
        },
        kind: Kind::DairyCow,
        slots: [Slot {
            given: Given::Value(u32::MAX),
        }; SLOTS],
    }
}

// The form of what stands in a slot, and its size: together they are what is given. A number below zero has a form of
// its own.
fn form_of(given: Given) -> u64 {
    match given {
        Given::Missing => 0,
        Given::Standard => 1,
        Given::Value(_) => 2,
        Given::Signed(v) if v < 0 => 4,
        Given::Signed(_) => 3,
    }
}

fn size_of(given: Given) -> u64 {
    match given {
        Given::Missing | Given::Standard => 0,
        Given::Value(v) => u64::from(v),
        Given::Signed(v) => u64::from(v.unsigned_abs()),
    }
}

// Is an entry as it was before a file was read? Every byte of its label counts, also those that are not in use.
pub fn is_untouched(h: &Herd) -> bool {
    *h == filler()
}

// The checksum with one number more.
fn mixed(sum: u64, x: u64) -> u64 {
    (sum % PRIME * FACTOR + x % PRIME) % PRIME
}

fn with_label(sum: u64, label: Label) -> u64 {
    let mut mix = mixed(sum, label.len as u64);
    for b in label.bytes {
        mix = mixed(mix, u64::from(b));
    }
    mix
}

fn with_slots(sum: u64, slots: &[Slot]) -> u64 {
    let mut mix = sum;
    for slot in slots {
        mix = mixed(mixed(mix, form_of(slot.given)), size_of(slot.given));
    }
    mix
}

// The checksum with an entry more, and its place; one that is as it was does not count.
fn with_entry(sum: u64, place: usize, h: &Herd) -> u64 {
    if is_untouched(h) {
        return sum;
    }
    let labelled = with_label(mixed(sum, place as u64), h.label);
    with_slots(mixed(labelled, inputs::number_of(h.kind) as u64), &h.slots)
}

// The checksum of these entries.
pub fn sum_of(herds: &[Herd]) -> u64 {
    let mut sum = 0;
    for (place, h) in herds.iter().enumerate() {
        sum = with_entry(sum, place, h);
    }
    sum
}
