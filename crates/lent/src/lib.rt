// A farm's herds in a lent array of herd records (02, W12): stored there from a farm, and loaded from there into one.
// Every call on such an array goes by these two; the work between them is done by value.
#![tactic(auto)]

ghost use Rattle.std.specs.Prelude.{◌≡◌, min, length};
ghost use Rattle.farm.specs.Limits.{herds_most};
ghost use Rattle.checks.specs.Checks.{herds_of};
ghost use Rattle.lent.specs.Laid.{laid, farm_from, farm_in};

use farm::{Farm, HERDS_MOST, Herd, herds};

// How many of a farm's herds an array of `len` entries takes.
fn storable(farm: Farm, len: usize) -> usize
    ensures { result ≡ min (length (herds_of farm)) len }
{
    farm.count.min(HERDS_MOST).min(len)
}

// How many of `count` herds in an array of `len` entries a farm takes.
fn loadable(count: usize, len: usize) -> usize
    ensures { result ≡ min (min count herds_most) len }
{
    count.min(HERDS_MOST).min(len)
}

// The farm of `count` herds that were in an array of `len` entries; where that is shorter, of more herds than any farm
// has, so that its check gives 9.
fn farm_from(herds: [Herd; HERDS_MOST], count: usize, len: usize) -> Farm
    ensures { result ≡ farm_from herds count len }
{
    Farm {
        herds,
        count: if len < count { HERDS_MOST + 1 } else { count },
    }
}

// The farm's herds go to the front of the array; every entry behind them stays.
pub fn store(herds: &mut [Herd], farm: Farm)
    ensures { herds.new ≡ laid (herds_of farm) herds.old }
{
    let n = storable(farm, herds.len());
    herds[..n].copy_from_slice(&farm.herds[..n]);
}

// The farm of the first `count` entries of the array.
pub fn load(herds: &[Herd], count: usize) -> Farm
    ensures { result ≡ farm_in herds.now count }
{
    let n = loadable(count, herds.len());
    let mut own = [herds::no_herd(); HERDS_MOST];
    own[..n].copy_from_slice(&herds[..n]);
    farm_from(own, count, herds.len())
}
