// 01, The listing: a herd's lines and the totals' lines, byte by byte, into a buffer that has room for them. Knows
// nothing of files.
#![tactic(auto)]

mod texts; // the line list
mod lists; // which lines a kind has

ghost use Rattle.std.specs.Prelude.{◌+◌, ◌≤◌, length};
ghost use Rattle.base.specs.Wrote.{Wrote};
ghost use Rattle.listing.specs.Listing.{herd_listing, totals_listing};

use farm::Label;
use inputs::Kind;
use line_parts::owners;
use outputs::{Figures, Totals};

// A herd's listing from `at` on; the end of it.
pub fn put_herd_lines(out: &mut [u8], at: usize, label: Label, kind: Kind, f: Figures) -> usize
    requires { at + length (herd_listing label kind f) ≤ length out.old }
    ensures { Wrote out.old at (herd_listing label kind f) out.new result }
{
    let mut in_owner = [0u8; owners::OWNER_MOST];
    let n = owners::put_owner(&mut in_owner, label, kind);
    let k = lists::list_of(kind);
    listing_lines::put_lines(
        out,
        at,
        base::part_of(&in_owner, 0, n),
        &texts::MIDDLES,
        &texts::STARTS,
        &f.grams,
        &texts::LINES[texts::LINE_STARTS[k]..texts::LINE_STARTS[k + 1]],
    )
}

// The totals' listing from `at` on; the end of it.
pub fn put_total_lines(out: &mut [u8], at: usize, t: Totals) -> usize
    requires { at + length (totals_listing t) ≤ length out.old }
    ensures { Wrote out.old at (totals_listing t) out.new result }
{
    listing_lines::put_lines(
        out,
        at,
        &texts::TOTAL_OWNER,
        &texts::TOTAL_MIDDLES,
        &texts::TOTAL_STARTS,
        &t.grams,
        &texts::TOTAL_LINES,
    )
}
