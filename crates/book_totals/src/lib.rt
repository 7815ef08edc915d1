// The totals that a step moves (02, W11): whether one is beyond what 16 allows, what a herd adds to them, and totals
// from which a herd's were taken and to which another's were added.
#![tactic(auto)]

ghost use Rattle.std.specs.Prelude.{◌≤◌, ◌≡◌, false, [], ◌∷◌, nat_abs, ◌+ℤ◌, ◌-ℤ◌};
ghost use Rattle.checks.specs.Checks.{check_herd};
ghost use Rattle.outputs.specs.Grams.{GramsTo};
ghost use Rattle.books.specs.Rules.{total_most, beyond};
ghost use Rattle.book_totals.specs.Parts.{part_most, TotalsOf, moved_by};
ghost use Rattle.farm.specs.Answers.{Accepted};

use books::TOTAL_MOST;
use farm::Herd;
use outputs::{Totals, total_names};

// 16: is a total further from zero than any farm's?
pub fn is_beyond(t: Totals) -> bool
    ensures { result ≡ beyond t }
{
    for g in t.grams {
        if TOTAL_MOST < cut_division::magnitude(g) {
            return true;
        }
    }
    false
}

// The totals of a herd by itself.
pub fn herd_totals(h: Herd) -> Totals
    requires { check_herd h ≡ Accepted }
    ensures { TotalsOf (h ∷ []) result }
{
    sums::totals_from(herd_figures::figures(herd_inputs::typed_of(h)))
}

// The totals of no herd.
pub fn no_totals() -> Totals
    ensures { TotalsOf [] result }
{
    sums::totals_from(sums::no_figures())
}

// x without y and with z.
fn exchanged(x: i64, y: i64, z: i64) -> i64
    requires { (nat_abs x ≤ total_most) × (nat_abs y ≤ part_most) × (nat_abs z ≤ part_most) }
    ensures { result ≡ (x -ℤ y) +ℤ z }
{
    x - y + z
}

// The totals without those of `gone` and with those of `come`.
pub fn moved_by(t: Totals, gone: Totals, come: Totals) -> Totals
    requires { (beyond t ≡ false) × GramsTo part_most gone.grams × GramsTo part_most come.grams }
    ensures { result.grams ≡ moved_by t gone come }
{
    let mut r = t;
    for i in 0..total_names::COUNT {
        r.grams[i] = exchanged(t.grams[i], gone.grams[i], come.grams[i]);
    }
    r
}
