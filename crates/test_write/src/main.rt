// What a farm's record is written as where that is as long as it can be (02, W5 and W12): herds of cattle with a label
// of 16 bytes and a comma, and the longest value of each input, 759 bytes a herd. 345 of them fit in 262,144 bytes, and
// 346 do not: that is 1 with record 0, before 13. The expected output is what `second/write.py` gives.
#![tactic(auto)]

use farm::{Given, HERDS_MOST, Herd, Label, Slot};
use inputs::{Kind, slots};
use printing::tell;
use views::View;

const SLOTS: usize = 9;

// The most that fit, and one more.
const MOST: usize = 345;

const ONE_MORE: usize = 346;

// A buffer that no herd fits.
const SHORT: usize = 8;

fn value(v: u32) -> Slot {
    Slot {
        given: Given::Value(v),
    }
}

fn longest_herd() -> Herd {
    let mut given = [value(365); SLOTS];
    given[slots::CATTLE_ANIMALS] = value(10000);
    given[slots::CATTLE_INP_N_EXCRETION] = value(199999);
    given[slots::CATTLE_TAN_FRACTION] = value(9999);
    given[slots::CATTLE_EXERCISE_YARD] = value(3);
    given[slots::CATTLE_FLOOR_PROPERTIES_EXERCISE_YARD] = value(3);
    given[slots::CATTLE_FREE_CORRECTION_FACTOR] = Slot {
        given: Given::Signed(-100),
    };
    given[slots::CATTLE_GRAZING_HOURS] = value(239);
    Herd {
        label: Label {
            bytes: *b"Herd, number 000",
            len: 16,
        },
        kind: Kind::Cattle,
        slots: given,
    }
}

// The last digit of a number.
fn digit(n: usize) -> u8 {
    b'0' + (n % 10) as u8
}

// The herd under another number.
fn numbered(h: Herd, n: usize) -> Herd {
    let mut herd = h;
    herd.label.bytes[13] = digit(n / 100);
    herd.label.bytes[14] = digit(n / 10);
    herd.label.bytes[15] = digit(n);
    herd
}

fn longest_herds() -> [Herd; HERDS_MOST] {
    let h = longest_herd();
    let mut herds = [h; HERDS_MOST];
    for (n, herd) in herds.iter_mut().enumerate() {
        *herd = numbered(h, n);
    }
    herds
}

fn write(rt: &impl Print, herds: [Herd; HERDS_MOST], count: usize, out: &mut [u8]) {
    tell::written_line(rt, test_totals::view_through(View::File, herds, count, out));
}

// So large an array comes from a function: where it is lent as it is made, every proof counts its elements.
fn room() -> [u8; limits::COOPERATIVE_BYTES] {
    [0u8; limits::COOPERATIVE_BYTES]
}

fn main(rt: HostRuntime) {
    let herds = longest_herds();
    let mut out = room();
    write(&rt, herds, MOST, &mut out);
    write(&rt, herds, ONE_MORE, &mut out);
    write(&rt, herds, HERDS_MOST, &mut out);
    write(&rt, herds, HERDS_MOST + 1, &mut out);
    let mut short = [0u8; SHORT];
    write(&rt, herds, MOST, &mut short);
    write(&rt, herds, ONE_MORE, &mut short);
}
