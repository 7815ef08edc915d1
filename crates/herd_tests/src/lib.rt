// What reading and the checks of a record both ask of a herd: whether it lacks an input, 12, and whether its label is
// that of an earlier herd, 8.
#![tactic(auto)]

ghost use Rattle.std.specs.Prelude.{◌≡◌};
ghost use Rattle.herd_tests.specs.Tests.{lacks, earlier_label, has_print};

use farm::{Herd, Label, herds, labels};

// Lacks the herd an input?
pub fn lacks_input(h: Herd) -> bool
    ensures { result ≡ lacks h }
{
    h.slots[..inputs::count_of(h.kind)]
        .iter()
        .any(|slot| herds::is_missing(slot.given))
}

// Is this the label of one of these herds?
pub fn earlier_label(herds: &[Herd], l: Label) -> bool
    ensures { result ≡ earlier_label herds.now l }
{
    herds
        .iter()
        .any(|earlier| labels::same_label(earlier.label, l))
}

// Is this one of the prints? Where it is none no label of theirs is that of this print. Every print is compared, with
// no way out at the first that is the same as in `contains`, so that the compiler can take many at once.
pub fn has_print(prints: &[u32], print: u32) -> bool
    ensures { result ≡ has_print prints.now print }
{
    let mut any = false;
    for p in prints {
        any |= *p == print;
    }
    any
}
