// The number of each refusal of a step. A match and no cast: the refusals of a record have their own numbers.
ghost use Rattle.std.specs.Prelude.{◌≡◌};
ghost use Rattle.books.specs.Rules.{number};

use crate::StepRefusal;

pub fn number_of(refusal: StepRefusal) -> u64
    ensures { result ≡ number refusal }
{
    match refusal {
        StepRefusal::Record(refusal) => refusal_numbers::number_of(refusal),
        StepRefusal::NotPresent => 15,
        StepRefusal::TotalTooLarge => 16,
    }
}
