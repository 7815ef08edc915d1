// What each step makes of a farm and its totals, once it is decided that it is done: only the named herd changes, and
// the totals move by its figures alone.
ghost use Rattle.std.specs.Prelude.{◌≡◌, true, ◌<◌};
ghost use Rattle.farm.specs.Limits.{herds_most};
ghost use Rattle.farm.specs.Answers.{Accepted};
ghost use Rattle.herd_tests.specs.Tests.{earlier_label};
ghost use Rattle.checks.specs.Checks.{check_herd, herds_of};
ghost use Rattle.books.specs.declared.Step.TheVariants.{Add, Replace, Remove};
ghost use Rattle.book_steps.specs.Changes.{Sound, Changed};

use books::Stepped;
use farm::{Farm, Herd};
use outputs::Totals;

// The herd goes last.
pub fn add(farm: Farm, totals: Totals, h: Herd) -> Stepped
    requires { Sound farm totals × (farm.count < herds_most) × (check_herd h ≡ Accepted) }
    ensures { Changed Add farm totals h result }
{
    let come = book_totals::herd_totals(h);
    Stepped {
        decided: Ok(()),
        farm: book_herds::added(farm, h),
        totals: book_totals::moved_by(totals, book_totals::no_totals(), come),
    }
}

// The herd stands in the place of the one of its label.
pub fn replace(farm: Farm, totals: Totals, h: Herd) -> Stepped
    requires { Sound farm totals × (earlier_label (herds_of farm) h.label ≡ true) × (check_herd h ≡ Accepted) }
    ensures { Changed Replace farm totals h result }
{
    let place = book_herds::place_of(farm, h.label);
    let gone = book_totals::herd_totals(farm.herds[place]);
    let come = book_totals::herd_totals(h);
    Stepped {
        decided: Ok(()),
        farm: book_herds::replaced_at(farm, place, h),
        totals: book_totals::moved_by(totals, gone, come),
    }
}

// The herd of this label is gone; of the herd that is handed in nothing else counts.
pub fn remove(farm: Farm, totals: Totals, h: Herd) -> Stepped
    requires { Sound farm totals × (earlier_label (herds_of farm) h.label ≡ true) }
    ensures { Changed Remove farm totals h result }
{
    let place = book_herds::place_of(farm, h.label);
    let gone = book_totals::herd_totals(farm.herds[place]);
    Stepped {
        decided: Ok(()),
        farm: book_herds::removed_at(farm, place),
        totals: book_totals::moved_by(totals, gone, book_totals::no_totals()),
    }
}
