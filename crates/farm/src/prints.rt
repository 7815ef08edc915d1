// A label's print: a number of 32 bits that its bytes in use make. Labels that are one have one print, so two labels
// are compared byte by byte only where their prints are the same.
ghost use Rattle.std.specs.Prelude.{◌≡◌};
ghost use Rattle.farm.specs.Prints.{print_with, print_of};

use crate::{LABEL_MOST, Label};

// Prints are below PRINTS. Each byte multiplies what stands before it by FACTOR, a prime that spreads labels widely.
const FACTOR: u64 = 16777619;

const PRINTS: u64 = 4294967296;

// A print with one byte more.
fn print_with(print: u32, b: u8) -> u32
    ensures { result ≡ print_with print b }
{
    ((print as u64 * FACTOR + b as u64) % PRINTS) as u32
}

pub fn print_of(l: Label) -> u32
    ensures { result ≡ print_of l }
{
    if LABEL_MOST < l.len {
        return 0;
    }
    let mut print = 0;
    for b in &l.bytes[..l.len] {
        print = print_with(print, *b);
    }
    print
}
