// Kilograms for charts (02, W13): a herd's figures and a farm's totals as doubles, by the numbers that the grams have.
#![tactic(auto)]

ghost use Rattle.std.specs.Prelude.{◌≡◌, map, ◌≤◌, nat_abs};
ghost use Rattle.outputs.specs.Grams.{GramsTo};
ghost use Rattle.kilograms.specs.Kilograms.{exact_most, in_kilograms, kilograms_of, total_kilograms_of};

use outputs::{Figures, Totals, names, total_names};

// A herd's figures in kilograms of nitrogen a year.
#[derive(Clone, Copy, Debug, PartialEq)]
pub struct Kilograms {
    pub kilograms: [f64; names::COUNT],
}

// A farm's totals in kilograms of nitrogen a year.
#[derive(Clone, Copy, Debug, PartialEq)]
pub struct TotalKilograms {
    pub kilograms: [f64; total_names::COUNT],
}

fn in_kilograms(grams: i64) -> f64
    requires { nat_abs grams ≤ exact_most }
    ensures { result ≡ in_kilograms grams }
{
    (grams as f64) / 1000.0
}

// Each number's grams in kilograms, of a herd's figures or a farm's totals.
fn converted<const N: usize>(grams: &[i64; N]) -> [f64; N]
    requires { GramsTo exact_most grams.now }
    ensures { result ≡ map in_kilograms grams.now }
{
    let mut kilograms = [0.0; N];
    for i in 0..N {
        kilograms[i] = in_kilograms(grams[i]);
    }
    kilograms
}

pub fn kilograms_of(f: Figures) -> Kilograms
    requires { GramsTo exact_most f.grams }
    ensures { result ≡ kilograms_of f }
{
    Kilograms {
        kilograms: converted(&f.grams),
    }
}

pub fn total_kilograms_of(t: Totals) -> TotalKilograms
    requires { GramsTo exact_most t.grams }
    ensures { result ≡ total_kilograms_of t }
{
    TotalKilograms {
        kilograms: converted(&t.grams),
    }
}
