// 2.51, tan_air_scrubber: what an air scrubber keeps back. "n in acid scrubber adds 100% to flux into storage", so only
// a biotrickling filter keeps something.
ghost use Rattle.std.specs.Prelude.{◌≡◌, ◌<◌, ◌^◌};
ghost use Rattle.amounts.specs.Dividing.{dividing, uncut};
ghost use Rattle.kinds.specs.Sound.{SoundPigs};
ghost use Rattle.pig_house.specs.PigHouse.{scrubbed_of, kept_back, handed_scrubbed};

use amounts::BILLIONTHS;
use kinds::{AirScrubber, Pigs};
use pig_factors::{factors, parameters};
use pig_house::Scrubbed;

// A hundredth, in billionths.
const HUNDREDTH: u64 = 10000000;

// What a filter keeps back, of so much TAN that the herd excretes.
#[tactic(auto, using(pig_house::proofs::Through::scrubbed_steps))]
fn scrubbed_of(p: Pigs, tan: u64) -> Scrubbed
    requires { SoundPigs p × (tan < 2 ^ 32) }
    ensures { result ≡ handed_scrubbed (scrubbed_of dividing p (uncut tan)) }
{
    let share = parameters::share_indoor(p.housing_type)
        * parameters::red_air_scrubber(p.air_scrubber)
        * HUNDREDTH;
    let before = factors::ef_housing_indoor_before_air_scrubber(p);
    let of_tan = amounts::portion(tan, share, BILLIONTHS);
    let kept = amounts::portion(of_tan.whole, before, BILLIONTHS);
    Scrubbed {
        times_tan_excretion: of_tan,
        times_ef_housing_indoor_before_air_scrubber: kept,
    }
}

// What the herd's scrubber keeps back.
#[tactic(auto, using(pig_house::proofs::Through::scrubber_steps))]
pub fn kept_back(p: Pigs, tan: u64) -> Scrubbed
    requires { SoundPigs p × (tan < 2 ^ 32) }
    ensures { result ≡ handed_scrubbed (kept_back dividing p (uncut tan)) }
{
    match p.air_scrubber {
        AirScrubber::Biotrickling => scrubbed_of(p, tan),
        AirScrubber::Acid | AirScrubber::None => no_pig_house::no_scrubbed(),
    }
}
