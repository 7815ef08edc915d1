// A herd's figures and its cuts: both are read off the same sections, which go by the kind.
#![tactic(auto)]

ghost use Rattle.std.specs.Prelude.{◌≡◌};
ghost use Rattle.kinds.specs.Sound.{Sound};
ghost use Rattle.herd.specs.Herd.{figures_of, sections_of};
ghost use Rattle.cuts.specs.Herd.{cuts_of};

use cuts::Cuts;
use kinds::Inputs;
use outputs::{Figures, Sections};

fn sections_of(inputs: Inputs) -> Sections
    requires { Sound inputs }
    ensures { result ≡ sections_of inputs }
{
    match inputs {
        Inputs::Roughage(r) => grazer_sections::roughage_sections(r),
        Inputs::Cattle(c) => grazer_sections::cattle_sections(c),
        Inputs::Pigs(p) => pig_sections::pigs_sections(p),
    }
}

pub fn figures(inputs: Inputs) -> Figures
    requires { Sound inputs }
    ensures { result ≡ figures_of inputs }
{
    figure_numbers::by_number(sections_of(inputs))
}

// What each division on the way cut off.
pub fn cuts_of(inputs: Inputs) -> Cuts
    requires { Sound inputs }
    ensures { result ≡ cuts_of inputs }
{
    cut_numbers::by_number(sections_of(inputs))
}
