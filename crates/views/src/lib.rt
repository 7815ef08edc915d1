// What a command lists of a farm, as a value: a herd's text in each view, an accepted farm's, and what a file is
// answered with, put together as bytes. A further view is a variant, its clause in specs/Views.antt and its arm in
// herds.rt.
#![tactic(auto)]

pub mod herds; // an accepted herd in a view, and herd after herd
pub mod farms; // an accepted farm in a view
pub mod files; // a file in a view
pub mod program; // what the program prints for a file

use written::Written;

// The figures; the notes; what each division cut off; why each yard has its share, in records or in sentences; the
// farm file that says the herds.
#[derive(Clone, Copy, Debug, PartialEq, Eq)]
pub enum View {
    Figures,
    Notes,
    Cuts,
    Reasons,
    Sentences,
    File,
}

// What the program prints for a file: how the call ended, and how many bytes are to be printed.
#[derive(Clone, Copy, Debug, PartialEq, Eq)]
pub struct Output {
    pub ended: Written,
    pub length: usize,
}

// Room for any view of any herd that is accepted, and for what stands behind the herds.
pub const HERD_ROOM: usize = listing_room::HERD_ROOM;

pub const BEHIND_ROOM: usize = listing_room::TOTALS_ROOM;

// Room for any view of any file that is accepted: from standard input, and a cooperative's.
pub const INPUT_ROOM: usize = limits::INPUT_HERDS * HERD_ROOM + BEHIND_ROOM;

pub const COOPERATIVE_ROOM: usize = limits::COOPERATIVE_HERDS * HERD_ROOM + BEHIND_ROOM;
