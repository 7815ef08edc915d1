// A record of a cut, and records one after the other.
ghost use Rattle.std.specs.Prelude.{◌+◌, ◌≤◌, length};
ghost use Rattle.base.specs.Wrote.{Wrote};
ghost use Rattle.line_parts.specs.Bounds.{longest_owner};
ghost use Rattle.lines_cuts.specs.Lines.{numbers_of};
ghost use Rattle.lines_cuts.specs.Numbered.{HasMiddles, put_together, numbered};

// What was cut off, and the divisor: the last two fields.
fn put_numbers(out: &mut [u8], at: usize, cut_off: u64, divisor: u64) -> usize
    requires { at + length (numbers_of cut_off divisor) ≤ length out.old }
    ensures { Wrote out.old at (numbers_of cut_off divisor) out.new result }
{
    let a = decimal::put_whole(out, at, cut_off);
    let b = base::put_byte(out, a, b',');
    let c = decimal::put_whole(out, b, divisor);
    base::put(out, c, b"\r\n")
}

// A cut that was made; nothing where its divisor is 0.
fn put_line(
    out: &mut [u8],
    at: usize,
    owner: &[u8],
    middle: &[u8],
    cut_off: u64,
    divisor: u64,
) -> usize
    requires { (length owner.now ≤ longest_owner)
        × (at + length (put_together owner.now middle.now cut_off divisor) ≤ length out.old) }
    ensures { Wrote out.old at
        (put_together owner.now middle.now cut_off divisor) out.new result }
{
    if divisor == 0 {
        return at;
    }
    let a = blocks::put_text(out, at, owner);
    let b = base::put(out, a, middle);
    put_numbers(out, b, cut_off, divisor)
}

// The records of these numbers, from `at` on; the end of the last.
pub fn put_lines(
    out: &mut [u8],
    at: usize,
    owner: &[u8],
    middles: &[u8],
    starts: &[usize],
    cut_off: &[u64],
    divisor: &[u64],
    lines: &[usize],
) -> usize
    requires { HasMiddles middles.now starts.now cut_off.now divisor.now lines.now
        × (length owner.now ≤ longest_owner)
        × (at + length (numbered owner.now middles.now starts.now cut_off.now divisor.now lines.now)
        ≤ length out.old) }
    ensures { Wrote out.old at
        (numbered owner.now middles.now starts.now cut_off.now
        divisor.now lines.now) out.new result }
{
    let mut next = at;
    for &n in lines {
        next = put_line(
            out,
            next,
            owner,
            &middles[starts[n]..starts[n + 1]],
            cut_off[n],
            divisor[n],
        );
    }
    next
}
