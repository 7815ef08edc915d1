// A farm's herds, edited by value (02, W11): where the herd of a label stands, and the farm with a herd behind the
// others, with another herd at a place, or without the one at a place. Knows nothing of totals and refusals.
#![tactic(auto)]

ghost use Rattle.std.specs.Prelude.{◌≡◌, ◌<◌, ◌≤◌, [], ◌∷◌, ◌++◌, set};
ghost use Rattle.farm.specs.Limits.{herds_most};
ghost use Rattle.checks.specs.Checks.{herds_of};
ghost use Rattle.book_herds.specs.Places.{place_of, without, HerdsAre};

use farm::{Farm, Herd, Label, labels};

// The place of the first herd of this label, or of one behind the last where none has it.
pub fn place_of(farm: Farm, l: Label) -> usize
    requires { farm.count ≤ herds_most }
    ensures { result ≡ place_of (herds_of farm) l }
{
    for i in 0..farm.count {
        if labels::same_label(farm.herds[i].label, l) {
            return i;
        }
    }
    farm.count
}

// The farm with this herd as its last.
pub fn added(farm: Farm, h: Herd) -> Farm
    requires { farm.count < herds_most }
    ensures { HerdsAre (herds_of farm ++ (h ∷ [])) result }
{
    let mut herds = farm.herds;
    herds[farm.count] = h;
    Farm {
        herds,
        count: farm.count + 1,
    }
}

// The farm with this herd at the place; the others stay where they are.
pub fn replaced_at(farm: Farm, place: usize, h: Herd) -> Farm
    requires { (place < farm.count) × (farm.count ≤ herds_most) }
    ensures { HerdsAre (set (herds_of farm) place h) result }
{
    let mut herds = farm.herds;
    herds[place] = h;
    Farm {
        herds,
        count: farm.count,
    }
}

// The farm without the herd at the place; those behind it move up by one.
pub fn removed_at(farm: Farm, place: usize) -> Farm
    requires { (place < farm.count) × (farm.count ≤ herds_most) }
    ensures { HerdsAre (without place (herds_of farm)) result }
{
    let last = farm.count - 1;
    let mut herds = farm.herds;
    for i in place..last {
        herds[i] = herds[i + 1];
    }
    Farm { herds, count: last }
}
