// The farm files of the second implementation that are held against a line (02, W8), run through the library: each
// answer is printed as the program prints it. Before a file stand the letter that says where it comes from, and the
// line, behind the number of its digits. The expected output is what the second implementation gives.
#![tactic(auto)]

use limits::Source;

// Longer than any case of the vectors.
const CASE_MOST: usize = 263000;

// Where the line's digits begin.
const DIGITS: usize = 2;

fn print_answer(rt: &impl Print, source: Source, file: &[u8], line: u64) {
    let put = line_answer::answer_of(source, file, line);
    let _ = streams::write_all(rt, base::part_of(&put.bytes, 0, put.length));
}

fn run_case(rt: &impl Print, case: &[u8]) {
    if case.len() < DIGITS {
        return;
    }
    let source = packs::source_of(base::part_of(case, 0, 1));
    let end = DIGITS + usize::from(case[1]);
    match wide_numbers::read_wide(base::part_of(case, DIGITS, end)) {
        Some(line) => print_answer(rt, source, base::part_of(case, end, case.len()), line),
        None => {}
    }
}

fn main(rt: HostRuntime) {
    let mut case: [u8; CASE_MOST] = base::room();
    for _ in 0..u64::MAX {
        let Some(n) = packs::next_file(&rt, &mut case) else {
            return;
        };
        run_case(&rt, base::part_of(&case, 0, n));
    }
}
