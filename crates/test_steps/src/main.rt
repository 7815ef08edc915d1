// Walks of steps over farms with stored totals (02, W11), run through the library: for each step what the program
// prints for it, and a line with the number of herds afterwards and a checksum of all of them with their places. The
// walks are the second implementation's, and the expected output is what it gives.
#![tactic(auto)]

mod walk_bytes; // a walk's bytes as records

use books::Step;
use farm::{Farm, HERDS_MOST, Herd};
use outputs::Totals;

// Longer than any walk.
const WALK_MOST: usize = 65536;

// A farm with its totals.
#[derive(Clone, Copy)]
struct Kept {
    farm: Farm,
    totals: Totals,
}

fn tell_farm(rt: &impl Print, farm: Farm) {
    let count = farm.count;
    let sum = test_entries::sum_of(&farm.herds[..count.min(HERDS_MOST)]);
    let _ = print!(rt; "{count},{sum}\r\n");
}

fn take(rt: &impl Print, kept: Kept, room: usize, step: Step, h: Herd) -> Kept {
    let taken = step_answer::take(kept.farm, room, kept.totals, step, h);
    let _ = streams::write_all(rt, base::part_of(&taken.bytes, 0, taken.length));
    tell_farm(rt, taken.farm);
    Kept {
        farm: taken.farm,
        totals: taken.totals,
    }
}

// The step that stands there, a byte and a record.
fn take_at(rt: &impl Print, kept: Kept, room: usize, s: &[u8]) -> Kept {
    let h = walk_bytes::herd_of(base::part_of(s, 1, s.len()));
    take(rt, kept, room, walk_bytes::step_of(s), h)
}

fn take_all(rt: &impl Print, begun: Kept, room: usize, steps: &[u8]) {
    let mut kept = begun;
    for step in steps.chunks_exact(walk_bytes::STEP_BYTES) {
        kept = take_at(rt, kept, room, step);
    }
}

fn run_walk(rt: &impl Print, walk: &[u8]) {
    let head = walk_bytes::head_of(walk);
    let farm = walk_bytes::farm_of(walk, head.count, head.herds);
    let totals = walk_bytes::totals_of(walk);
    take_all(
        rt,
        Kept { farm, totals },
        head.room,
        walk_bytes::steps_of(walk, head.herds),
    );
}

fn main(rt: HostRuntime) {
    let mut walk: [u8; WALK_MOST] = base::room();
    for _ in 0..u64::MAX {
        let Some(n) = packs::next_file(&rt, &mut walk) else {
            return;
        };
        run_walk(&rt, base::part_of(&walk, 0, n));
    }
}
