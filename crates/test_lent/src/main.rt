// Reading into a lent array, run (02, W12): each farm file is read into an array of 512 herds and into a short one,
// whose entries were all the same and no herd. For either array five lines are printed: the answer, the number of
// herds, how many entries are as they were, a checksum of all others with their places, and the ammonia of the herds
// as a farm's record. The expected output is what the second implementation gives.
#![tactic(auto)]

use farm::{HERDS_MOST, Herd};
use lent_file::LentAnswer;
use model::FarmAnswer;
use outputs::total_names;
use printing::tell;
use test_arrays::SHORT;

// Longer than any file of the pack.
const CASE_MOST: usize = 263000;

fn tell_answer(rt: &impl Print, answer: LentAnswer) {
    tell::checked_line(rt, answer.checked);
    tell::number(rt, answer.count as u64);
}

fn tell_entries(rt: &impl Print, herds: &[Herd]) {
    let left = herds
        .iter()
        .filter(|h| test_entries::is_untouched(*h))
        .count();
    tell::number(rt, left as u64);
    tell::number(rt, test_entries::sum_of(herds));
}

fn tell_ammonia(rt: &impl Print, answer: FarmAnswer) {
    tell::kilograms(rt, answer.totals.grams[total_names::NH3_NLIVESTOCK]);
}

// By way of an array of as many herds as a farm may have.
fn by_array(rt: &impl Print, file: &[u8]) {
    let through = test_arrays::read_through::<HERDS_MOST>(file, test_entries::filler());
    tell_answer(rt, through.answer);
    tell_entries(rt, &through.herds);
    tell_ammonia(
        rt,
        test_totals::totals_through(through.herds, through.answer.count),
    );
}

// The same by way of a short one. As one function over any length the proof did not close: an array of it has to fit in
// memory.
fn by_short_array(rt: &impl Print, file: &[u8]) {
    let through = test_arrays::read_through::<SHORT>(file, test_entries::filler());
    tell_answer(rt, through.answer);
    tell_entries(rt, &through.herds);
    tell_ammonia(
        rt,
        test_totals::totals_through(through.herds, through.answer.count),
    );
}

fn main(rt: HostRuntime) {
    let mut file: [u8; CASE_MOST] = base::room();
    for _ in 0..u64::MAX {
        let Some(n) = packs::next_file(&rt, &mut file) else {
            return;
        };
        by_array(&rt, base::part_of(&file, 0, n));
        by_short_array(&rt, base::part_of(&file, 0, n));
    }
}
