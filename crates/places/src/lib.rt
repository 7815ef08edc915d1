// What stands at a place of the file, and what it does to the herd being read. Refusal 2.
#![tactic(auto)]

ghost use Rattle.std.specs.Prelude.{◌≡◌};
ghost use Rattle.places.specs.Places.{read_at};

use csv_reader::{ReaderPlace, Step};
use farm::{Herd, Refusal};
use progress::Effect;
use records::entries;

// What stands at a place of the file: its effect, the herd that is being read then, and the place past it.
#[derive(Clone, Copy, Debug, PartialEq, Eq)]
pub struct PlaceRead {
    pub effect: Effect,
    pub herd: Herd,
    pub next: ReaderPlace,
}

pub fn read_at(s: &[u8], place: ReaderPlace, herd: Herd) -> PlaceRead
    ensures { result ≡ read_at s.now place herd }
{
    match place.next(s) {
        Step::End => PlaceRead {
            effect: Effect::Ends,
            herd,
            next: place,
        },
        Step::Broken => PlaceRead {
            effect: Effect::Wrong(Refusal::RecordBroken),
            herd,
            next: place,
        },
        Step::Record(f, next) => {
            let after = progress::effect_of(herd, entries::entry_of(s, f));
            PlaceRead {
                effect: after.effect,
                herd: after.herd,
                next,
            }
        }
    }
}
