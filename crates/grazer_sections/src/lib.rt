// The sections of herds that have no pig house, cattle and roughage-consuming animals: excretion, yard, pasture, and
// what remains for the housing.
#![tactic(auto)]

ghost use Rattle.std.specs.Prelude.{◌≡◌, ◌≤◌};
ghost use Rattle.amounts.specs.Units.{ten_thousandths};
ghost use Rattle.amounts.specs.Dividing.{dividing};
ghost use Rattle.amounts.specs.Bounds.{most_n};
ghost use Rattle.kinds.specs.declared.Inputs.TheVariants as kinds;
ghost use Rattle.kinds.specs.Sound.{SoundOutdoor, SoundRoughage, SoundCattle};
ghost use Rattle.rates.specs.Bounds.{ModestRates};
ghost use Rattle.excretion.specs.Excretion.{with_tan};
ghost use Rattle.outputs.specs.Sections.{handed_sections};
ghost use Rattle.herd.specs.Herd.{of_grazer_sections, roughage_on, outdoor_on, sections_of};

use excretion::Excretion;
use housing::Housing;
use kinds::{Cattle, Outdoor, Roughage};
use outputs::Sections;
use pasture::Grazing;
use rates::Rates;
use yard::Yard;

// A kind whose house is none of the pigs'.
fn without_pig_house(e: Excretion, y: Yard, g: Grazing, h: Housing) -> Sections
    ensures { result ≡ of_grazer_sections e y g h }
{
    Sections {
        excretion: e,
        yard: y,
        grazing: g,
        housing: h,
        pig_house: no_pig_house::no_pig_house(),
        nx_ox: no_pig_house::no_nx_ox(),
    }
}

// A roughage herd that excretes so much N, with this soluble fraction.
fn roughage_from(r: Roughage, n: u64, fraction: u64) -> Sections
    requires { SoundRoughage r × (n ≤ most_n) × (fraction ≤ ten_thousandths) }
    ensures { result ≡ handed_sections (roughage_on dividing r (with_tan dividing n fraction)) }
{
    let e = excretion::excreted(n, fraction);
    let g = pasture::roughage_grazing(r, e.n_excretion, e.tan_excretion.whole);
    let n_in = e.n_excretion - g.into.n.whole;
    let tan_in = e.tan_excretion.whole - g.into.tan.whole;
    without_pig_house(e, yard::no_yard(), g, housing::in_housing(r, n_in, tan_in))
}

pub fn roughage_sections(r: Roughage) -> Sections
    requires { SoundRoughage r }
    ensures { result ≡ sections_of (kinds.Roughage r) }
{
    let grams = excretion::n_excretion_animal(r.animalcategory, r.inp_n_excretion);
    let fraction = excretion::tan_fraction(tables::SHARE_NSOL, r.tan_fraction);
    roughage_from(r, excretion::n_excretion(r.animals, grams), fraction)
}

// A herd with a yard, at its kind's rates, that excretes so much N, with this soluble fraction.
fn outdoor_from(r: Rates, o: Outdoor, n: u64, fraction: u64) -> Sections
    requires { ModestRates r × SoundOutdoor o × (n ≤ most_n) × (fraction ≤ ten_thousandths) }
    ensures { result ≡ handed_sections (outdoor_on dividing r o (with_tan dividing n fraction)) }
{
    let e = excretion::excreted(n, fraction);
    let y = yard::on_yard(o, e.n_excretion, e.tan_excretion.whole);
    let g = pasture::outdoor_grazing(r, o, e.n_excretion, e.tan_excretion.whole);
    let n_in = e.n_excretion - y.into.n.whole - g.into.n.whole;
    let tan_in = e.tan_excretion.whole - y.into.tan.whole - g.into.tan.whole;
    without_pig_house(e, y, g, housing::through_door(n_in, tan_in))
}

pub fn cattle_sections(c: Cattle) -> Sections
    requires { SoundCattle c }
    ensures { result ≡ sections_of (kinds.Cattle c) }
{
    let fraction = excretion::tan_fraction(tables::DAIRY_SHARE_NSOL, c.tan_fraction);
    let n = excretion::n_excretion(c.animals, c.inp_n_excretion);
    outdoor_from(rates::cattle_rates(c.kind), c.outdoor, n, fraction)
}
