// A farm file read into a lent array of herd records (02, W12): its herds go to the front of the array; or the first
// refusal that applies is given, with its record, and the array stays as it was.
#![tactic(auto)]

ghost use Rattle.std.specs.Prelude.{◌≡◌};
ghost use Rattle.lent_file.specs.Reading.{limits_for, read_for, told_of, ReadInto};

use farm::{Checked, Herd};
use limits::{COOPERATIVE_BYTES, COOPERATIVE_HERDS, Limits};
use reader::FileAnswer;

// What reading into an array gives: how many herds the file has, or the refusal and 0.
#[derive(Clone, Copy, Debug, PartialEq, Eq)]
pub struct LentAnswer {
    pub checked: Checked,
    pub count: usize,
}

// A cooperative's limits, and no more herds than an array of `len` entries takes.
fn limits_for(len: usize) -> Limits
    ensures { result ≡ limits_for len }
{
    Limits {
        bytes: COOPERATIVE_BYTES,
        herds: len.min(COOPERATIVE_HERDS),
    }
}

// The farm that a file says, or its refusal, for an array of `len` entries.
pub fn read_for(s: &[u8], len: usize) -> FileAnswer
    ensures { result ≡ read_for len s.now }
{
    farm_file::read_within(limits_for(len), s)
}

fn told(answer: FileAnswer) -> LentAnswer
    ensures { result ≡ told_of answer }
{
    LentAnswer {
        checked: answer.checked,
        count: answer.farm.count,
    }
}

// A file's herds go to the front of the array; every entry behind them stays, and after a refusal all entries do: it
// has a farm of no herds, and storing that stores nothing.
pub fn read_into(s: &[u8], herds: &mut [Herd]) -> LentAnswer
    ensures { ReadInto s.now herds.old result herds.new }
{
    let answer = read_for(s, herds.len());
    lent::store(herds, answer.farm);
    told(answer)
}
