// The gate's logs of the second implementation, run through the library: each log's answer is printed as the program
// prints it. The expected output is what the second implementation gives.
#![tactic(auto)]

// Longer than any log of the vectors.
const CASE_MOST: usize = 66000;

fn print_answer(rt: &impl Print, log: &[u8]) {
    let put = gate_answer::answer_of(log);
    let _ = streams::write_all(rt, base::part_of(&put.bytes, 0, put.length));
}

fn main(rt: HostRuntime) {
    let mut log: [u8; CASE_MOST] = base::room();
    for _ in 0..u64::MAX {
        let Some(n) = packs::next_file(&rt, &mut log) else {
            return;
        };
        print_answer(&rt, base::part_of(&log, 0, n));
    }
}
