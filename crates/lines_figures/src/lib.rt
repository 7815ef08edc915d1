// 01, The listing: an accepted herd's figures as lines, and an accepted farm's, "each herd, then the totals", into a
// buffer that has room for as many. Each herd's figures are worked out once, and what was checked is not checked again.
#![tactic(auto)]

ghost use Rattle.std.specs.Prelude.{◌≡◌, ◌+◌, ◌≤◌, length};
ghost use Rattle.base.specs.Wrote.{Wrote};
ghost use Rattle.checks.specs.Checks.{check_herd, check_farm};
ghost use Rattle.listing_room.specs.Bounds.{herd_room, farm_room};
ghost use Rattle.lines_figures.specs.Lines.{listing_of, farm_listing};
ghost use Rattle.farm.specs.Answers.{Accepted};

use farm::{Farm, Herd};

// The listing of an accepted herd, from `at` on; the end of it.
pub fn put_herd(out: &mut [u8], at: usize, h: Herd) -> usize
    requires { (check_herd h ≡ Accepted) × (at + herd_room ≤ length out.old) }
    ensures { Wrote out.old at (listing_of h) out.new result × (result ≤ at + herd_room) }
{
    listing::put_herd_lines(
        out,
        at,
        h.label,
        h.kind,
        herd_figures::figures(herd_inputs::typed_of(h)),
    )
}

// The listing of an accepted farm, from the front of the buffer on; the end of it.
#[tactic(auto, using(crate::proofs::FarmSteps::few_herds))]
pub fn put_farm(out: &mut [u8], farm: Farm) -> usize
    requires { (check_farm farm ≡ Accepted) × (farm_room farm.count ≤ length out.old) }
    ensures { Wrote out.old 0 (farm_listing farm) out.new result
        × (result ≤ farm_room farm.count) }
{
    let mut sum = sums::no_figures();
    let mut at = 0;
    for h in &farm.herds[..farm.count] {
        let f = herd_figures::figures(herd_inputs::typed_of(*h));
        at = listing::put_herd_lines(out, at, h.label, h.kind, f);
        sum = sums::plus(sum, f);
    }
    listing::put_total_lines(out, at, sums::totals_from(sum))
}
