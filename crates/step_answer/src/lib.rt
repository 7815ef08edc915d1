// A step as the program takes it (02, W11): the farm and its totals afterwards, and what is printed for the step. After
// a refused step both are as they were.
#![tactic(auto)]

pub mod files; // a farm's file opened for steps

ghost use Rattle.std.specs.Prelude.{◌≡◌};
ghost use Rattle.step_answer.specs.Program.{pick_farm, Takes};

use books::{Decided, Step};
use farm::{Farm, Herd};
use outputs::Totals;

// Longer than any answer: the totals' listing is the longest.
pub const ANSWER_ROOM: usize = 784;

// What was decided of a step, the farm and its totals afterwards, and what is printed for the step: its bytes stand
// from the front on, before zeros.
#[derive(Clone, Copy)]
pub struct Taken {
    pub decided: Decided,
    pub farm: Farm,
    pub totals: Totals,
    pub bytes: [u8; ANSWER_ROOM],
    pub length: usize,
}

// The new farm after a step that is done, the old one after one that is refused.
fn pick_farm(decided: Decided, old: Farm, new: Farm) -> Farm
    ensures { result ≡ pick_farm decided old new }
{
    match decided {
        Ok(()) => new,
        Err(_) => old,
    }
}

// `room` is how many herds there is room for.
pub fn take(farm: Farm, room: usize, totals: Totals, step: Step, h: Herd) -> Taken
    ensures { Takes farm room totals step h result }
{
    let stepped = book_steps::step(farm, room, totals, step, h);
    let mut bytes = [0; ANSWER_ROOM];
    let length = lines_steps::put_answer(&mut bytes, stepped.decided, stepped.totals);
    Taken {
        decided: stepped.decided,
        farm: pick_farm(stepped.decided, farm, stepped.farm),
        totals: stepped.totals,
        bytes,
        length,
    }
}
