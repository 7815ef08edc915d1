// The number of each refusal of a log. A match and no cast: the numbers have gaps.
ghost use Rattle.std.specs.Prelude.{◌≡◌};
ghost use Rattle.gate_days.specs.Refusals.{number};

use crate::LogRefusal;

pub fn number_of(refusal: LogRefusal) -> u64
    ensures { result ≡ number refusal }
{
    match refusal {
        LogRefusal::LogTooLong => 1,
        LogRefusal::RecordBroken => 2,
        LogRefusal::NotThreeFields => 3,
        LogRefusal::BadHours => 7,
        LogRefusal::WrongDate => 14,
    }
}
