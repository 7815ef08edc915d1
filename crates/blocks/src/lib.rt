// A text copied a block at a time: 16 bytes, which the compiler moves at once.
#![tactic(auto)]

ghost use Rattle.std.specs.Prelude.{◌+◌, ◌≤◌, length};
ghost use Rattle.base.specs.Part.{part};
ghost use Rattle.base.specs.Wrote.{Wrote};
ghost use Rattle.blocks.specs.Blocks.{block, longest_text};

const BLOCK: usize = 16;

// The block of t from k on.
fn put_block(out: &mut [u8], at: usize, t: &[u8], k: usize) -> usize
    requires { (k + block ≤ length t.now) × (at + block ≤ length out.old) }
    ensures { Wrote out.old at (part t.now k (k + block)) out.new result }
{
    base::put(out, at, &t[k..k + BLOCK])
}

// Copies t, of at most three blocks, into out from `at` on, and gives the place past it. The last block overlaps the
// one before it.
pub fn put_text(out: &mut [u8], at: usize, t: &[u8]) -> usize
    requires { (length t.now ≤ longest_text) × (at + length t.now ≤ length out.old) }
    ensures { Wrote out.old at t.now out.new result }
{
    if t.len() < BLOCK {
        return base::put(out, at, t);
    }
    let last = t.len() - BLOCK;
    put_block(out, at, t, 0);
    if last <= BLOCK {
        return put_block(out, at + last, t, last);
    }
    put_block(out, at + BLOCK, t, BLOCK);
    put_block(out, at + last, t, last)
}
