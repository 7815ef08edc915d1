// A step on a farm by value (02, W11): it is decided, and where it is not refused the farm's herds and their totals are
// changed. Of a refused step no herd is handed back, so that nothing of it can be stored.
#![tactic(auto)]

ghost use Rattle.books.specs.Answers.{StepsTo};

use books::{Step, Stepped};
use farm::{Farm, Herd, herds};
use outputs::Totals;

pub mod changes; // what each step makes of a farm and its totals

// `room` is how many herds there is room for.
pub fn step(farm: Farm, room: usize, totals: Totals, step: Step, h: Herd) -> Stepped
    ensures { StepsTo farm room totals step h result }
{
    match book_rules::decide(farm, room, totals, step, h) {
        Ok(()) => match step {
            Step::Add => changes::add(farm, totals, h),
            Step::Replace => changes::replace(farm, totals, h),
            Step::Remove => changes::remove(farm, totals, h),
        },
        Err(refusal) => Stepped {
            decided: Err(refusal),
            farm: herds::no_farm(),
            totals,
        },
    }
}
