// The vectors of the second implementation, run through the library: of each file its figures, its notes, its cuts, its
// reasons, in records and in sentences, and its farm written as a file are printed, as the commands print them. A
// letter before the file says where it comes from. The expected output is what the second implementation gives.
#![tactic(auto)]

use limits::Source;
use views::View;

// Longer than any file of the vectors.
const CASE_MOST: usize = 263000;

// What each command prints.
fn print_views(rt: &impl Print, source: Source, file: &[u8]) {
    let views = [
        View::Figures,
        View::Notes,
        View::Cuts,
        View::Reasons,
        View::Sentences,
        View::File,
    ];
    for view in views {
        let _ = printing::print_view(rt, view, source, file);
    }
}

fn main(rt: HostRuntime) {
    let mut file: [u8; CASE_MOST] = base::room();
    for _ in 0..u64::MAX {
        let Some(n) = packs::next_file(&rt, &mut file) else {
            return;
        };
        let source = packs::source_of(base::part_of(&file, 0, 1));
        print_views(&rt, source, base::part_of(&file, 1, n));
    }
}
