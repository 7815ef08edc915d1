// 2.2, 2.22, 2.50 and 2.84: what the animals of a herd excrete in a year.
#![tactic(auto)]

ghost use Rattle.std.specs.Prelude.{◌≡◌, ◌*◌, ◌≤◌};
ghost use Rattle.amounts.specs.Units.{ten_thousandths};
ghost use Rattle.amounts.specs.Dividing.{dividing};
ghost use Rattle.amounts.specs.Bounds.{most_n, WithinMostN, UpTo};
ghost use Rattle.kinds.specs.Sound.{most_animals, most_grams};
ghost use Rattle.excretion.specs.Excretion.{n_excretion_animal, tan_fraction, with_tan, handed_excretion};

use amounts::TEN_THOUSANDTHS;
use cut_division::Quotient;
use kinds::Entered;

#[derive(Clone, Copy, Debug, PartialEq, Eq)]
pub struct Excretion {
    pub n_excretion: u64,
    pub tan_excretion: Quotient,
}

// Grams a head: the category's standard, unless a number is entered.
pub fn n_excretion_animal(category: u64, entered: Entered) -> u64
    ensures { result ≡ n_excretion_animal category entered }
{
    match entered {
        Entered::Standard => tables::standard(category),
        Entered::Number(grams) => grams,
    }
}

// The soluble fraction, in ten-thousandths: the page's share_Nsol, unless a number is entered.
pub fn tan_fraction(share: u64, entered: Entered) -> u64
    ensures { result ≡ tan_fraction share entered }
{
    match entered {
        Entered::Standard => share,
        Entered::Number(fraction) => fraction,
    }
}

// The N of so many animals, each of which excretes so many grams.
#[tactic(auto, using(crate::proofs::Modest::n_steps))]
pub fn n_excretion(animals: u64, grams: u64) -> u64
    requires { (animals ≤ most_animals) × (grams ≤ most_grams) }
    ensures { UpTo most_n (animals * grams) result }
{
    animals * grams
}

// What a herd excretes: so much N, with this soluble fraction.
#[tactic(auto, using(crate::proofs::Modest::excreted_steps))]
pub fn excreted(n: u64, fraction: u64) -> Excretion
    requires { (n ≤ most_n) × (fraction ≤ ten_thousandths) }
    ensures is { result ≡ handed_excretion (with_tan dividing n fraction) }
    ensures modest { WithinMostN result.n_excretion result.tan_excretion.whole }
{
    Excretion {
        n_excretion: n,
        tan_excretion: amounts::portion(n, fraction, TEN_THOUSANDTHS),
    }
}
