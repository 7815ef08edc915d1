// Figures added up number by number, and the totals of 2.1 from the sums, each the sum of its addends.
#![tactic(auto)]

mod total_addends; // the addends of each total, by number

ghost use Rattle.std.specs.Prelude.{◌≡◌, ◌<◌, length};
ghost use Rattle.outputs.specs.Names.{totals};
ghost use Rattle.outputs.specs.Grams.{GramsTo, figure_most, plus_grams, zeros, total_at, total_grams};

use outputs::{Figures, Totals, names, total_names};

pub fn plus(a: Figures, b: Figures) -> Figures
    requires { GramsTo figure_most a.grams × GramsTo figure_most b.grams }
    ensures { result.grams ≡ plus_grams a.grams b.grams }
{
    let mut sum = a;
    for i in 0..names::COUNT {
        sum.grams[i] = cut_division::plus(a.grams[i], b.grams[i]);
    }
    sum
}

pub fn no_figures() -> Figures
    ensures { result.grams ≡ zeros }
{
    Figures {
        grams: [0; names::COUNT],
    }
}

pub fn total(f: Figures, t: usize) -> i64
    requires { GramsTo figure_most f.grams × (t < length totals) }
    ensures { result ≡ total_at f.grams t }
{
    let mut sum = 0;
    for k in total_addends::STARTS[t]..total_addends::STARTS[t + 1] {
        let n = total_addends::ADDENDS[k];
        sum = cut_division::plus(sum, f.grams[n]);
    }
    sum
}

// 2.1, from the sums of all herds' figures.
pub fn totals_from(f: Figures) -> Totals
    requires { GramsTo figure_most f.grams }
    ensures { result.grams ≡ total_grams f.grams }
{
    let mut r = Totals {
        grams: [0; total_names::COUNT],
    };
    for t in 0..total_names::COUNT {
        r.grams[t] = total(f, t);
    }
    r
}
