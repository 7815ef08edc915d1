// A walk's bytes as records. Numbers have their lowest byte first. A walk is the length of the array, how many herds
// the farm counts and how many stand there; the totals, each a byte that says 1 below zero and eight more; those herds;
// and steps, a byte and a herd each. A herd is the length of its label, 16 bytes, its kind, and a form and a size a
// slot.
ghost use Rattle.std.specs.Prelude.{◌≤◌};

use books::Step;
use farm::{Farm, Given, HERDS_MOST, Herd, LABEL_MOST, Label, SLOTS, Slot, labels};
use inputs::Kind;
use outputs::{Totals, total_names};

const COUNT_BYTES: usize = 2;

const TOTAL_BYTES: usize = 9;

const SLOT_BYTES: usize = 5;

const HERD_BYTES: usize = 1 + LABEL_MOST + 1 + SLOTS * SLOT_BYTES;

pub const STEP_BYTES: usize = 1 + HERD_BYTES;

// Where the totals and where the herds begin.
const TOTALS_AT: usize = 3 * COUNT_BYTES;

const HERDS_AT: usize = TOTALS_AT + total_names::COUNT * TOTAL_BYTES;

// What the first numbers say.
#[derive(Clone, Copy, Debug, PartialEq, Eq)]
pub struct Head {
    pub room: usize,
    pub count: usize,
    pub herds: usize,
}

// The number that these bytes are; of more than eight the lowest.
fn number_of(s: &[u8]) -> u64 {
    let mut n = 0;
    for b in s.iter().rev() {
        n = n % 72057594037927936 * 256 + u64::from(*b);
    }
    n
}

// A number of at most four bytes.
fn short_number_of(s: &[u8]) -> u32 {
    (number_of(s) % 4294967296) as u32
}

// A number that counts herds or places.
fn count_of(s: &[u8]) -> usize
    ensures { result ≤ 65535 }
{
    (number_of(s) % 65536) as usize
}

pub fn head_of(walk: &[u8]) -> Head {
    Head {
        room: count_of(base::part_of(walk, 0, COUNT_BYTES)),
        count: count_of(base::part_of(walk, COUNT_BYTES, 2 * COUNT_BYTES)),
        herds: count_of(base::part_of(walk, 2 * COUNT_BYTES, TOTALS_AT)),
    }
}

// ---- a herd

fn signed(size: u32) -> Given {
    Given::Signed((size % 65536) as i32)
}

fn below_zero(size: u32) -> Given {
    Given::Signed(0 - ((size % 65536) as i32))
}

fn given_of(form: u32, size: u32) -> Given {
    match form {
        0 => Given::Missing,
        1 => Given::Standard,
        2 => Given::Value(size),
        3 => signed(size),
        _ => below_zero(size),
    }
}

fn kind_of(number: u32) -> Kind {
    match number {
        0 => Kind::Roughage,
        1 => Kind::Cattle,
        2 => Kind::Pigs,
        _ => Kind::DairyCow,
    }
}

fn slot_of(s: &[u8]) -> Slot {
    let form = short_number_of(base::part_of(s, 0, 1));
    let size = short_number_of(base::part_of(s, 1, SLOT_BYTES));
    Slot {
        given: given_of(form, size),
    }
}

// The first bytes of a label that may be longer.
fn label_of(s: &[u8]) -> Label {
    let bytes = labels::label_of(base::part_of(s, 1, 1 + LABEL_MOST)).bytes;
    Label {
        bytes,
        len: count_of(base::part_of(s, 0, 1)),
    }
}

pub fn herd_of(s: &[u8]) -> Herd {
    let slots = base::part_of(s, 1 + LABEL_MOST + 1, HERD_BYTES);
    let mut h = Herd {
        label: label_of(s),
        kind: kind_of(short_number_of(base::part_of(s, 1 + LABEL_MOST, 2 + LABEL_MOST))),
        slots: [Slot {
            given: Given::Missing,
        }; SLOTS],
    };
    for i in 0..SLOTS {
        let from = i * SLOT_BYTES;
        h.slots[i] = slot_of(base::part_of(slots, from, from + SLOT_BYTES));
    }
    h
}

// ---- a farm, its totals, and the steps

// So many herds before entries that are none, and the count that the farm says.
pub fn farm_of(walk: &[u8], count: usize, standing: usize) -> Farm {
    let standing_herds = base::part_of(walk, HERDS_AT, walk.len());
    let mut farm = Farm {
        herds: [test_entries::filler(); HERDS_MOST],
        count,
    };
    for i in 0..standing.min(HERDS_MOST) {
        let from = i * HERD_BYTES;
        farm.herds[i] = herd_of(base::part_of(standing_herds, from, from + HERD_BYTES));
    }
    farm
}

fn above_zero(far: u64) -> i64 {
    (far % 9223372036854775808) as i64
}

fn far_below_zero(far: u64) -> i64 {
    let size = (far % 9223372036854775808) as i64;
    0 - size
}

fn total_of(s: &[u8]) -> i64 {
    let far = number_of(base::part_of(s, 1, TOTAL_BYTES));
    if short_number_of(base::part_of(s, 0, 1)) == 1 {
        far_below_zero(far)
    } else {
        above_zero(far)
    }
}

pub fn totals_of(walk: &[u8]) -> Totals {
    let all = base::part_of(walk, TOTALS_AT, HERDS_AT);
    let mut grams = [0i64; total_names::COUNT];
    for i in 0..total_names::COUNT {
        let from = i * TOTAL_BYTES;
        grams[i] = total_of(base::part_of(all, from, from + TOTAL_BYTES));
    }
    Totals { grams }
}

// What stands behind the herds.
pub fn steps_of(walk: &[u8], standing: usize) -> &[u8] {
    if HERDS_MOST < standing {
        return base::part_of(walk, 0, 0);
    }
    base::part_of(walk, HERDS_AT + standing * HERD_BYTES, walk.len())
}

pub fn step_of(s: &[u8]) -> Step {
    match short_number_of(base::part_of(s, 0, 1)) {
        0 => Step::Add,
        1 => Step::Replace,
        _ => Step::Remove,
    }
}
