// The kilograms as doubles, run: of each herd of a farm file the bits of its figures' kilograms, a line each, and then
// those of the farm's totals. The expected output is what the second implementation gives.
#![tactic(auto)]

use farm::{Farm, Herd};
use limits::Source;
use outputs::names;
use printing::tell;

// Longer than any file of the pack.
const CASE_MOST: usize = 66000;

const FIGURES_SHOWN: usize = 30;

// The figures that are shown, in the order of the listing.
const SHOWN: [usize; FIGURES_SHOWN] = [
    names::N_EXCRETION,
    names::TAN_EXCRETION,
    names::N_INTO_YARD,
    names::TAN_INTO_YARD,
    names::NH3_NYARD,
    names::N_OUTYARD_LIQUID,
    names::TAN_OUTYARD_LIQUID,
    names::N_INTO_GRAZING,
    names::TAN_INTO_GRAZING,
    names::NH3_NGRAZING,
    names::N2_NGRAZING,
    names::NO_NGRAZING,
    names::N2O_NGRAZING,
    names::N_REMAIN_GRAZING,
    names::TAN_REMAIN_GRAZING,
    names::N_INTO_HOUSING,
    names::TAN_INTO_HOUSING,
    names::NH3_NHOUSING,
    names::N_OUTHOUSING,
    names::TAN_OUTHOUSING,
    names::N_OUTHOUSING_LIQUID,
    names::TAN_OUTHOUSING_LIQUID,
    names::N_OUTHOUSING_SOLID,
    names::TAN_OUTHOUSING_SOLID,
    names::N2_NSOLID,
    names::NO_NSOLID,
    names::N2O_NSOLID,
    names::N2_NLIQUID,
    names::NO_NLIQUID,
    names::N2O_NLIQUID,
];

// What is no number has no bits of its own; no kilograms are such, and nothing is printed for one.
fn tell_bits(rt: &impl Print, x: f64) {
    if x == x {
        tell::number(rt, f64::to_bits(x));
    }
}

fn of_herd(rt: &impl Print, h: Herd) {
    let kilograms = calls::herd_figures(h).kilograms.kilograms;
    for n in SHOWN {
        if n < names::COUNT {
            tell_bits(rt, kilograms[n]);
        }
    }
}

fn of_totals(rt: &impl Print, f: Farm) {
    for x in test_totals::totals_through(f.herds, f.count)
        .kilograms
        .kilograms
    {
        tell_bits(rt, x);
    }
}

fn of_file(rt: &impl Print, s: &[u8]) {
    let f = farm_file::read(Source::StandardInput, s).farm;
    for h in f.herds.iter().take(f.count) {
        of_herd(rt, *h);
    }
    of_totals(rt, f);
}

fn main(rt: HostRuntime) {
    let mut file: [u8; CASE_MOST] = base::room();
    for _ in 0..u64::MAX {
        let Some(n) = packs::next_file(&rt, &mut file) else {
            return;
        };
        of_file(&rt, base::part_of(&file, 0, n));
    }
}
