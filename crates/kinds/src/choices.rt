// The choices of 2.34, 2.58, 2.59 and 2.62 by their places in 01's lists of names, and past a list's end the last. A
// table for each list, however alike two are.
ghost use Rattle.std.specs.Prelude.{◌≡◌};
ghost use Rattle.kinds.specs.Choices.{yard_at, floor_at, housing_at, scrubber_at, housing_floor_at, housing_air_at};

use crate::{AirScrubber, ExerciseYard, Floor, HousingAir, HousingFloor, HousingType};

#[tactic(auto, using(crate::proofs::Last::is_last), unfolding(crate::specs::Choices::yard_at))]
pub fn yard_at(place: u64) -> ExerciseYard
    ensures { result ≡ yard_at place }
{
    match place {
        0 => ExerciseYard::NotAvailable,
        1 => ExerciseYard::NotSupplied,
        2 => ExerciseYard::Partly,
        _ => ExerciseYard::Exclusively,
    }
}

#[tactic(auto, using(crate::proofs::Last::is_last), unfolding(crate::specs::Choices::floor_at))]
pub fn floor_at(place: u64) -> Floor
    ensures { result ≡ floor_at place }
{
    match place {
        0 => Floor::Solid,
        1 => Floor::Unpaved,
        2 => Floor::Perforated,
        _ => Floor::Paddock,
    }
}

#[tactic(auto, using(crate::proofs::Last::is_last), unfolding(crate::specs::Choices::housing_at))]
pub fn housing_at(place: u64) -> HousingType
    ensures { result ≡ housing_at place }
{
    match place {
        0 => HousingType::SlurryConventional,
        1 => HousingType::SlurryLabel,
        2 => HousingType::SlurryLabelOpen,
        3 => HousingType::DeepLitter,
        _ => HousingType::Outdoor,
    }
}

#[tactic(auto, using(crate::proofs::Last::is_last), unfolding(crate::specs::Choices::scrubber_at))]
pub fn scrubber_at(place: u64) -> AirScrubber
    ensures { result ≡ scrubber_at place }
{
    match place {
        0 => AirScrubber::Acid,
        1 => AirScrubber::Biotrickling,
        _ => AirScrubber::None,
    }
}

#[tactic(auto, using(crate::proofs::Last::is_last), unfolding(crate::specs::Choices::housing_floor_at))]
pub fn housing_floor_at(place: u64) -> HousingFloor
    ensures { result ≡ housing_floor_at place }
{
    HousingFloor::None
}

#[tactic(auto, using(crate::proofs::Last::is_last), unfolding(crate::specs::Choices::housing_air_at))]
pub fn housing_air_at(place: u64) -> HousingAir
    ensures { result ≡ housing_air_at place }
{
    match place {
        0 => HousingAir::LowImpulsAirSupply,
        _ => HousingAir::None,
    }
}
