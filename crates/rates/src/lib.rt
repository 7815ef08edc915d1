// 2.20, 2.35, 2.61 and 2.88, Technical Parameters: what a pasture emits of what comes onto it, kind by kind.
#![tactic(auto)]

ghost use Rattle.std.specs.Prelude.{◌+◌, ◌≤◌};
ghost use Rattle.amounts.specs.Units.{ten_thousandths};
ghost use Rattle.rates.specs.Rates.{rates, cattle_rates, pigs_rates, roughage_rates};
ghost use Rattle.rates.specs.Bounds.{RatesOf};

use kinds::CattleKind;

// Emission rates in ten-thousandths, of NH3 from the TAN, of the others from the N.
#[derive(Clone, Copy, Debug, PartialEq, Eq)]
pub struct Rates {
    pub nh3: u64,
    pub n2: u64,
    pub no: u64,
    pub n2o: u64,
}

fn rates_of(nh3: u64, n2: u64, no: u64, n2o: u64) -> Rates
    requires { nh3 + n2 + no + n2o ≤ ten_thousandths }
    ensures { RatesOf (rates nh3 n2 no n2o) result }
{
    Rates { nh3, n2, no, n2o }
}

// 2.35 and 2.20: each section has its own rates, alike as they are, so each kind has an arm.
#[tactic(auto, using(crate::proofs::Modest::rates_in))]
pub fn cattle_rates(kind: CattleKind) -> Rates
    ensures { RatesOf (cattle_rates kind) result }
{
    match kind {
        CattleKind::OtherCattle => rates_of(830, 0, 55, 200),
        CattleKind::DairyCow => rates_of(830, 0, 55, 200),
    }
}

// 2.61.
pub fn pigs_rates() -> Rates
    ensures { RatesOf pigs_rates result }
{
    rates_of(2000, 0, 55, 200)
}

// 2.88.
pub fn roughage_rates() -> Rates
    ensures { RatesOf roughage_rates result }
{
    rates_of(1250, 0, 55, 100)
}
