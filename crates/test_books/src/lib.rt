// For the test programs: an array that is handed in by value is lent to a step (02, W11) here, and handed back whole,
// so that every entry can be compared.
#![tactic(auto)]

ghost use Rattle.books.specs.Answers.{TakesStep};

use books::{Book, Step, StepAnswer};
use farm::Herd;
use test_arrays::Through;

// A step on an array of N herds.
pub fn step_through<const N: usize>(
    herds: [Herd; N],
    book: Book,
    step: Step,
    h: Herd,
) -> Through<StepAnswer, N>
    ensures { TakesStep step h book herds.entry result.answer result.herds }
{
    let mut array = herds;
    let answer = lent_steps::take_step(&mut array, book, step, h);
    Through {
        answer,
        herds: array,
    }
}
