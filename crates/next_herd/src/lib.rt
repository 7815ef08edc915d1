// A herd that follows the one being read: whether there is room for it, and how many herds there are and which lacks an
// input with the one that was being read.
#![tactic(auto)]

ghost use Rattle.std.specs.Prelude.{◌≡◌, ◌<◌, leb};
ghost use Rattle.farm.specs.Limits.{herds_most};
ghost use Rattle.next_herd.specs.Farms.{lacking_with, herds_so_far};

use farm::Herd;

// The first record of the first herd that lacks an input: `before` where one of those before this herd does.
pub fn lacking_with(before: usize, herd: Herd, first: usize) -> usize
    ensures { result ≡ lacking_with before herd first }
{
    if before != 0 {
        before
    } else if herd_tests::lacks_input(herd) {
        first
    } else {
        0
    }
}

// How many herds the farm has with the one being read, where there is one.
pub fn herds_so_far(count: usize, first: usize) -> usize
    requires { count < herds_most }
    ensures { result ≡ herds_so_far count first }
{
    if first == 0 { count } else { count + 1 }
}

// Has the farm as many herds as it may have, `most`, with the one being read? Then another label is 9.
pub fn is_full(count: usize, first: usize, most: usize) -> bool
    requires { count < herds_most }
    ensures { result ≡ leb most (herds_so_far count first) }
{
    most <= herds_so_far(count, first)
}
