// The vectors of mending, run through the library: for each file a line with the mended file's length and the number
// of changes, then the mended file, then the list of changes. The expected output is what the second implementation
// gives.
#![tactic(auto)]

use streams::telling::Tell;

// Longer than any file of the vectors.
const CASE_MOST: usize = 8192;

const MENDED_MOST: usize = 2 * CASE_MOST;

const LIST_MOST: usize = mend::ENTRY * CASE_MOST;

// The mended file's length and the number of changes.
fn print_counts(rt: &(impl Print + Tell), s: &[u8], out: &mut [u8], list: &mut [usize]) {
    match mend::mend(s, out, list) {
        Ok((length, changes)) => {
            mend_print::print_list(rt, &[length, changes]);
        }
        Err(_) => {}
    }
}

fn run_case(rt: &(impl Print + Tell), s: &[u8], out: &mut [u8], list: &mut [usize]) {
    print_counts(rt, s, out, list);
    mend_print::print_mended_by(rt, s, out, list);
    mend_print::print_changes_by(rt, s, out, list);
}

fn main(rt: HostRuntime) {
    let mut file: [u8; CASE_MOST] = base::room();
    let mut out: [u8; MENDED_MOST] = base::room();
    let mut list = [0usize; LIST_MOST];
    for _ in 0..u64::MAX {
        let Some(n) = packs::next_file(&rt, &mut file) else {
            return;
        };
        run_case(&rt, base::part_of(&file, 0, n), &mut out, &mut list);
    }
}
