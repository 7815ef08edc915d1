// The steps that change a farm in a lent array of herd records, beside its book (02, W11 and W12): the farm is loaded
// from the array, the step is taken by value, and what it leaves is stored. A refused step leaves array and book as
// they were.
#![tactic(auto)]

ghost use Rattle.std.specs.Prelude.{◌≡◌};
ghost use Rattle.books.specs.Answers.{TakesStep};
ghost use Rattle.lent_steps.specs.Named.{herd_named};
ghost use Rattle.lent_steps.specs.Told.{told_of};

use books::{Book, Step, StepAnswer, Stepped};
use farm::{Herd, Label, herds};

// A herd that has this label and says nothing else: of the herd that a removal is handed only the label counts.
pub fn herd_named(label: Label) -> Herd
    ensures { result ≡ herd_named label }
{
    Herd {
        label,
        ..herds::no_herd()
    }
}

// What is told of it: the book afterwards, which after a refusal is the one before.
fn told(book: Book, stepped: Stepped) -> StepAnswer
    ensures { result ≡ told_of book stepped }
{
    match stepped.decided {
        Ok(()) => StepAnswer {
            decided: Ok(()),
            book: Book {
                count: stepped.farm.count,
                totals: stepped.totals,
            },
        },
        Err(refusal) => StepAnswer {
            decided: Err(refusal),
            book,
        },
    }
}

// A step on the farm that is the first `count` entries of the array, as the book says.
pub fn take_step(herds: &mut [Herd], book: Book, step: Step, h: Herd) -> StepAnswer
    ensures { TakesStep step h book herds.old result herds.new }
{
    let farm = lent::load(herds, book.count);
    let after = book_steps::step(farm, herds.len(), book.totals, step, h);
    // a refused step has a farm of no herds, and storing that stores nothing
    lent::store(herds, after.farm);
    told(book, after)
}
