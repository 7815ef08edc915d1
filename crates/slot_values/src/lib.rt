// What stands in a slot of a herd's record: a number, one that may be below zero, or one that may be left to the
// standard. What is missing reads as 0; no record that passes the checks has that.
#![tactic(auto)]

ghost use Rattle.std.specs.Prelude.{◌≡◌, ◌<◌};
ghost use Rattle.farm.specs.Limits.{slots};
ghost use Rattle.typed_inputs.specs.Typed.{number_in, signed_in, entered_in, number_at, signed_at, entered_at};

use farm::{Given, Herd};
use kinds::Entered;

fn number_in(given: Given) -> u64
    ensures { result ≡ number_in given }
{
    match given {
        Given::Value(v) => u64::from(v),
        Given::Missing | Given::Standard | Given::Signed(_) => 0,
    }
}

fn signed_in(given: Given) -> i64
    ensures { result ≡ signed_in given }
{
    match given {
        Given::Signed(v) => i64::from(v),
        Given::Missing | Given::Standard | Given::Value(_) => 0,
    }
}

fn entered_in(given: Given) -> Entered
    ensures { result ≡ entered_in given }
{
    match given {
        Given::Standard => Entered::Standard,
        Given::Value(v) => Entered::Number(u64::from(v)),
        Given::Missing | Given::Signed(_) => Entered::Number(0),
    }
}

// The number in a slot.
pub fn number_at(h: Herd, place: usize) -> u64
    requires { place < slots }
    ensures { result ≡ number_at h place }
{
    number_in(h.slots[place].given)
}

pub fn signed_at(h: Herd, place: usize) -> i64
    requires { place < slots }
    ensures { result ≡ signed_at h place }
{
    signed_in(h.slots[place].given)
}

pub fn entered_at(h: Herd, place: usize) -> Entered
    requires { place < slots }
    ensures { result ≡ entered_at h place }
{
    entered_in(h.slots[place].given)
}
