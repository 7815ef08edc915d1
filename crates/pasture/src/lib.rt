// 2.20, 2.35, 2.61 and 2.88: what is excreted on pasture, the gases from it and what remains. The model takes every gas
// from the TAN too, so what remains of that may be below zero, and is not lifted.
#![tactic(auto)]

ghost use Rattle.std.specs.Prelude.{◌≡◌, ◌*◌};
ghost use Rattle.amounts.specs.Units.{tenths, year, day};
ghost use Rattle.amounts.specs.Arithmetic.{cutting};
ghost use Rattle.amounts.specs.Dividing.{dividing, uncut};
ghost use Rattle.amounts.specs.Bounds.{WithinMostN, PortionsOf, UpTo};
ghost use Rattle.kinds.specs.Sound.{SoundOutdoor, SoundRoughage};
ghost use Rattle.rates.specs.Bounds.{ModestRates};
ghost use Rattle.pasture.specs.Pasture.{outdoor_grazing_time, roughage_grazing_time, on_pasture, pigs_into_grazing};
ghost use Rattle.pasture.specs.Pasture.{outdoor_grazing, roughage_grazing, pigs_grazing, handed_from, handed_grazing};
ghost use Rattle.pasture.specs.Bounds.{Emitted};

use amounts::{DAY, Parts, TEN_THOUSANDTHS, TENTHS, YEAR, YEAR_OF_HOURS};
use cut_division::Quotient;
use kinds::{HousingType, Outdoor, Roughage};
use rates::Rates;

// What a pasture emits.
#[derive(Clone, Copy, Debug, PartialEq, Eq)]
pub struct Gases {
    pub nh3: Quotient,
    pub n2: Quotient,
    pub no: Quotient,
    pub n2o: Quotient,
}

#[derive(Clone, Copy, Debug, PartialEq, Eq)]
pub struct Grazing {
    pub into: Parts,
    pub gases: Gases,
    pub n_remain_grazing: u64,
    pub tan_remain_grazing: i64,
}

// A year of days of 24 hours, in tenths of an hour and tenths of a day.
const YEAR_OF_SHARED_HOURS: u64 = DAY * (TENTHS * YEAR);

// The part of the year that a herd with a yard is on pasture.
#[tactic(auto, using(crate::proofs::Times::outdoor_time_steps))]
fn outdoor_grazing_time(o: Outdoor) -> u64
    requires { SoundOutdoor o }
    ensures { UpTo (day * (tenths * year)) (outdoor_grazing_time o) result }
{
    let both = yard::days_with_grazing_and_yard(o);
    let shared = yard::share_excretion_with_grazing(o);
    o.grazing_hours * ((o.grazing_days - both) * TENTHS + (TENTHS - shared) * both)
}

// What a herd with a yard puts on pasture, of so much N and TAN.
#[tactic(auto, using(amounts::proofs::Amounts::shares_found))]
fn outdoor_into_grazing(o: Outdoor, n: u64, tan: u64) -> Parts
    requires { SoundOutdoor o × WithinMostN n tan }
    ensures { PortionsOf n tan (outdoor_grazing_time o) (day * (tenths * year)) result }
{
    amounts::portions(n, tan, outdoor_grazing_time(o), YEAR_OF_SHARED_HOURS)
}

// What a roughage herd puts on pasture, of so much N and TAN.
#[tactic(auto, using(crate::proofs::Into::roughage_steps))]
fn roughage_into_grazing(h: Roughage, n: u64, tan: u64) -> Parts
    requires { SoundRoughage h × WithinMostN n tan }
    ensures { PortionsOf n tan (roughage_grazing_time h) (day * year) result }
{
    amounts::portions(n, tan, h.grazing_hours * h.grazing_days, YEAR_OF_HOURS)
}

// What pigs put on pasture of an amount: outdoors all, else nothing.
fn pigs_into_grazing(housing: HousingType, amount: u64) -> u64
    ensures { result ≡ pigs_into_grazing cutting housing amount }
{
    match housing {
        HousingType::SlurryConventional
        | HousingType::SlurryLabel
        | HousingType::SlurryLabelOpen
        | HousingType::DeepLitter => 0,
        HousingType::Outdoor => amount,
    }
}

// What a pasture emits onto which so much N and TAN comes.
#[tactic(auto, using(crate::proofs::OnPasture::pasture_steps))]
fn gases_of(r: Rates, n: u64, tan: u64) -> Gases
    requires { ModestRates r × WithinMostN n tan }
    ensures { Emitted r n tan result }
{
    Gases {
        nh3: amounts::portion(tan, r.nh3, TEN_THOUSANDTHS),
        n2: amounts::portion(n, r.n2, TEN_THOUSANDTHS),
        no: amounts::portion(n, r.no, TEN_THOUSANDTHS),
        n2o: amounts::portion(n, r.n2o, TEN_THOUSANDTHS),
    }
}

// The pasture onto which so much N and TAN comes.
#[tactic(auto, using(crate::proofs::OnPasture::pasture_steps))]
fn on_pasture(r: Rates, into: Parts) -> Grazing
    requires { ModestRates r × WithinMostN into.n.whole into.tan.whole }
    ensures { result ≡ handed_from into (on_pasture dividing r (uncut into.n.whole) (uncut into.tan.whole)) }
{
    let n = into.n.whole;
    let tan = into.tan.whole;
    let g = gases_of(r, n, tan);
    let all = g.nh3.whole + g.n2.whole + g.no.whole + g.n2o.whole;
    Grazing {
        into,
        gases: g,
        n_remain_grazing: n - all,
        tan_remain_grazing: cut_division::less(tan, all),
    }
}

// The pasture of a herd with a yard, at its kind's rates, where the herd excretes so much N and TAN.
#[tactic(auto, using(crate::proofs::Into::outdoor_steps))]
pub fn outdoor_grazing(r: Rates, o: Outdoor, n: u64, tan: u64) -> Grazing
    requires { ModestRates r × SoundOutdoor o × WithinMostN n tan }
    ensures { result ≡ handed_grazing (outdoor_grazing dividing r o (uncut n) (uncut tan)) }
{
    on_pasture(r, outdoor_into_grazing(o, n, tan))
}

// The pasture of a roughage herd.
#[tactic(auto, using(crate::proofs::Into::roughage_steps))]
pub fn roughage_grazing(h: Roughage, n: u64, tan: u64) -> Grazing
    requires { SoundRoughage h × WithinMostN n tan }
    ensures { result ≡ handed_grazing (roughage_grazing dividing h (uncut n) (uncut tan)) }
{
    on_pasture(rates::roughage_rates(), roughage_into_grazing(h, n, tan))
}

// The pasture of a pig herd.
#[tactic(auto, using(crate::proofs::Into::pigs_steps))]
pub fn pigs_grazing(housing: HousingType, n: u64, tan: u64) -> Grazing
    requires { WithinMostN n tan }
    ensures { result ≡ handed_grazing (pigs_grazing dividing housing (uncut n) (uncut tan)) }
{
    let into = Parts {
        n: cut_division::undivided(pigs_into_grazing(housing, n)),
        tan: cut_division::undivided(pigs_into_grazing(housing, tan)),
    };
    on_pasture(rates::pigs_rates(), into)
}
