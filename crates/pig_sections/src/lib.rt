// The sections of a pig herd: excretion, pasture, and what remains for the pig house.
#![tactic(auto)]

ghost use Rattle.std.specs.Prelude.{◌≡◌, ◌≤◌};
ghost use Rattle.amounts.specs.Dividing.{dividing};
ghost use Rattle.amounts.specs.Bounds.{most_n};
ghost use Rattle.kinds.specs.declared.Inputs.TheVariants as kinds;
ghost use Rattle.kinds.specs.Sound.{SoundPigs};
ghost use Rattle.excretion.specs.Excretion.{with_tan};
ghost use Rattle.outputs.specs.Sections.{handed_sections};
ghost use Rattle.herd.specs.Herd.{pigs_handed, sections_of};

use kinds::Pigs;
use outputs::Sections;
use pig_amounts::house;

// Pigs that excrete so much N.
fn pigs_from(p: Pigs, n: u64) -> Sections
    requires { SoundPigs p × (n ≤ most_n) }
    ensures { result ≡ handed_sections (pigs_handed p (with_tan dividing n p.tan_fraction)) }
{
    let e = excretion::excreted(n, p.tan_fraction);
    let g = pasture::pigs_grazing(p.housing_type, e.n_excretion, e.tan_excretion.whole);
    let n_in = e.n_excretion - g.into.n.whole;
    let tan_in = e.tan_excretion.whole - g.into.tan.whole;
    let house = house::in_pig_house(p, e.tan_excretion.whole, n_in, tan_in);
    Sections {
        excretion: e,
        yard: yard::no_yard(),
        grazing: g,
        housing: house.housing,
        pig_house: house.pig_house,
        nx_ox: pig_gases::nx_ox(p.housing_type, n_in),
    }
}

pub fn pigs_sections(p: Pigs) -> Sections
    requires { SoundPigs p }
    ensures { result ≡ sections_of (kinds.Pigs p) }
{
    pigs_from(p, excretion::n_excretion(p.animals, p.inp_n_excretion))
}
