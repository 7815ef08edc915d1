// For the test programs: arrays of a known content are lent to the calls of the library here, and handed back whole, so
// that every entry can be compared.
#![tactic(auto)]

ghost use Rattle.std.specs.Prelude.{replicate};
ghost use Rattle.lent_file.specs.Reading.{ReadInto};

use farm::Herd;
use lent_file::LentAnswer;

// An array that most files of a test do not fit in.
pub const SHORT: usize = 3;

// What a call answered, and all that the array holds then.
#[derive(Clone, Copy, Debug, PartialEq, Eq)]
pub struct Through<A, const N: usize> {
    pub answer: A,
    pub herds: [Herd; N],
}

// A file read into an array of N herds, each of which was `filler`.
pub fn read_through<const N: usize>(s: &[u8], filler: Herd) -> Through<LentAnswer, N>
    ensures { ReadInto s.now (replicate N filler) result.answer result.herds }
{
    let mut herds = [filler; N];
    let answer = lent_file::read_into(s, &mut herds);
    Through { answer, herds }
}
