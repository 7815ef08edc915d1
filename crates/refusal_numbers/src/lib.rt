// 01's number of each refusal. A match and no cast: each number stands beside its name, however the enum is ordered.
#![tactic(auto)]

ghost use Rattle.std.specs.Prelude.{◌≡◌};
ghost use Rattle.farm.specs.Refusals.{number};

use farm::Refusal;

pub fn number_of(refusal: Refusal) -> u64
    ensures { result ≡ number refusal }
{
    match refusal {
        Refusal::FileTooLong => 1,
        Refusal::RecordBroken => 2,
        Refusal::NotFourFields => 3,
        Refusal::BadLabel => 4,
        Refusal::NotInTheList => 5,
        Refusal::StandardForbidden => 6,
        Refusal::BadValue => 7,
        Refusal::EarlierLabel => 8,
        Refusal::NoRoomForHerd => 9,
        Refusal::OtherKind => 10,
        Refusal::GivenAlready => 11,
        Refusal::InputMissing => 12,
        Refusal::BufferTooShort => 13,
    }
}
