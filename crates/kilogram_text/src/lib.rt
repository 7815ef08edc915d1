// Grams written as kilograms, as the listing has them.
#![tactic(auto)]

ghost use Rattle.std.specs.Prelude.{◌+◌, ◌≤◌, length};
ghost use Rattle.base.specs.Wrote.{Wrote};
ghost use Rattle.kilogram_text.specs.Kilograms.{sign, thousandths_of, kilograms_of};

// The decimals that kilograms are written with.
const DECIMALS: usize = 3;

// Grams in a kilogram.
const KILOGRAM: u64 = 1000;

// n thousandths: the whole part, the point and the decimals.
fn put_thousandths(out: &mut [u8], at: usize, n: u64) -> usize
    requires { at + length (thousandths_of n) ≤ length out.old }
    ensures { Wrote out.old at (thousandths_of n) out.new result }
{
    let a = decimal::put_whole(out, at, n / KILOGRAM);
    let b = base::put_byte(out, a, b'.');
    decimal::put_lowest(out, b, DECIMALS, n)
}

// A `-` below zero, else nothing.
pub fn put_sign(out: &mut [u8], at: usize, g: i64) -> usize
    requires { at + length (sign g) ≤ length out.old }
    ensures { Wrote out.old at (sign g) out.new result }
{
    if g < 0 {
        base::put_byte(out, at, b'-')
    } else {
        at
    }
}

// g grams, as kilograms.
pub fn put_kilograms(out: &mut [u8], at: usize, g: i64) -> usize
    requires { at + length (kilograms_of g) ≤ length out.old }
    ensures { Wrote out.old at (kilograms_of g) out.new result }
{
    let a = put_sign(out, at, g);
    put_thousandths(out, a, cut_division::magnitude(g))
}
