// A good record, and records changed in one place.
use crate::script::Change;
use farm::{Farm, Given, HERDS_MOST, Herd, Label, Slot};
use inputs::{Kind, slots};

const SLOTS: usize = 9;

const LABEL_BYTES: usize = 16;

// How many numbers a script can say.
const NUMBERS: u32 = 1000000;

fn value(v: u32) -> Slot {
    Slot {
        given: Given::Value(v),
    }
}

// A number that may be below zero.
fn signed(v: i32) -> Slot {
    Slot {
        given: Given::Signed(v),
    }
}

// 01's pigs: 10 head, 13 kg, 70 percent, outdoor; no scrubber, no mitigation, free factor 0.
pub fn pigs() -> Herd {
    let missing = Slot {
        given: Given::Missing,
    };
    let mut given = [missing; SLOTS];
    given[slots::PIGS_ANIMALS] = value(10);
    given[slots::PIGS_INP_N_EXCRETION] = value(13000);
    given[slots::PIGS_TAN_FRACTION] = value(7000);
    given[slots::PIGS_HOUSING_TYPE] = value(4);
    given[slots::PIGS_AIR_SCRUBBER] = value(2);
    given[slots::PIGS_MITIGATION_HOUSING_FLOOR] = value(0);
    given[slots::PIGS_MITIGATION_HOUSING_AIR] = value(1);
    given[slots::PIGS_FREE_CORRECTION_FACTOR] = signed(0);
    Herd {
        label: Label {
            bytes: *b"P1..............",
            len: 2,
        },
        kind: Kind::Pigs,
        slots: given,
    }
}

fn label_after(old: Label, change: Change) -> Label {
    let mut label = old;
    match change.what {
        b'L' => label.len = change.place,
        b'B' if change.place < LABEL_BYTES => {
            label.bytes[change.place] = (change.value % 256) as u8;
        }
        _ => {}
    }
    label
}

fn given_by(change: Change) -> Given {
    match change.what {
        b'V' => Given::Value(change.value),
        b'P' => Given::Signed((change.value % NUMBERS) as i32),
        b'N' => Given::Signed(0 - (change.value % NUMBERS) as i32),
        b'S' => Given::Standard,
        _ => Given::Missing,
    }
}

fn is_of_label(what: u8) -> bool {
    what == b'L' || what == b'B'
}

pub fn changed(h: Herd, change: Change) -> Herd {
    let mut herd = h;
    if is_of_label(change.what) {
        herd.label = label_after(h.label, change);
    } else if change.what != b'-' && change.place < SLOTS {
        herd.slots[change.place] = Slot {
            given: given_by(change),
        };
    }
    herd
}

// A farm of `count` herds, all the first but for the one after it.
pub fn farm_of(first: Herd, second: Herd, count: usize) -> Farm {
    let mut herds = [first; HERDS_MOST];
    herds[1] = second;
    Farm { herds, count }
}

// The same as an array of few.
pub fn few_of(first: Herd, second: Herd) -> [Herd; test_totals::FEW] {
    let mut herds = [first; test_totals::FEW];
    herds[1] = second;
    herds
}
