// A line of the listing, and lines one after the other: their owner, texts from a table, and grams as kilograms. Knows
// neither herds nor names.
#![tactic(auto)]

ghost use Rattle.std.specs.Prelude.{◌+◌, ◌≤◌, length};
ghost use Rattle.base.specs.Wrote.{Wrote};
ghost use Rattle.line_parts.specs.Bounds.{longest_owner};
ghost use Rattle.line_parts.specs.Middles.{Tabled};
ghost use Rattle.listing_lines.specs.Numbered.{longest_middle, put_together, numbered};

fn put_line(out: &mut [u8], at: usize, owner: &[u8], middle: &[u8], grams: i64) -> usize
    requires { (length owner.now ≤ longest_owner) × (length middle.now ≤ longest_middle)
        × (at + length (put_together owner.now middle.now grams) ≤ length out.old) }
    ensures { Wrote out.old at (put_together owner.now middle.now grams)
        out.new result }
{
    let a = blocks::put_text(out, at, owner);
    let b = blocks::put_text(out, a, middle);
    let c = kilogram_text::put_kilograms(out, b, grams);
    base::put(out, c, b"\r\n")
}

// The lines of these numbers, from `at` on; the end of the last.
pub fn put_lines(
    out: &mut [u8],
    at: usize,
    owner: &[u8],
    middles: &[u8],
    starts: &[usize],
    grams: &[i64],
    lines: &[usize],
) -> usize
    requires { Tabled longest_middle (length grams.now) middles.now starts.now lines.now
        × (length owner.now ≤ longest_owner)
        × (at + length (numbered owner.now middles.now starts.now grams.now lines.now) ≤ length out.old) }
    ensures { Wrote out.old at
        (numbered owner.now middles.now starts.now grams.now
        lines.now) out.new result }
{
    let mut next = at;
    for &n in lines {
        next = put_line(
            out,
            next,
            owner,
            &middles[starts[n]..starts[n + 1]],
            grams[n],
        );
    }
    next
}
