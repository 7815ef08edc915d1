// A number written in its shortest form (02, W5): decimals without zeros at their end, and no point without a digit.
#![tactic(auto)]

ghost use Rattle.std.specs.Prelude.{◌≡◌, ◌+◌, ◌/◌, ◌^◌, ◌≤◌, length};
ghost use Rattle.base.specs.Wrote.{Wrote};
ghost use Rattle.shortest_numbers.specs.Shortest.{pointed, shortest};

// The whole part of a number with so many decimals.
fn whole_part(decimals: usize, v: u32) -> u32
    ensures { result ≡ v / 10 ^ decimals }
{
    let mut whole = v;
    for _ in 0..decimals {
        whole /= 10;
    }
    whole
}

// The number with all its decimals.
fn put_pointed(out: &mut [u8], at: usize, decimals: usize, v: u32) -> usize
    requires { at + length (pointed decimals v) ≤ length out.old }
    ensures { Wrote out.old at (pointed decimals v) out.new result }
{
    let a = decimal::put_whole(out, at, whole_part(decimals, v) as u64);
    let b = base::put_byte(out, a, b'.');
    decimal::put_lowest(out, b, decimals, v as u64)
}

// v counts units of the last of so many decimals: each that is 0 at the end is left out.
pub fn put_shortest(out: &mut [u8], at: usize, decimals: usize, v: u32) -> usize
    requires { at + length (shortest decimals v) ≤ length out.old }
    ensures { Wrote out.old at (shortest decimals v) out.new result }
{
    let mut m = v;
    for left in (0..decimals).rev() {
        if m % 10 != 0 {
            return put_pointed(out, at, left + 1, m);
        }
        m /= 10;
    }
    decimal::put_whole(out, at, m as u64)
}
