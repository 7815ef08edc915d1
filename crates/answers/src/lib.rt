// A herd's record answered with its figures, notes and cuts, a farm's with its totals, or either with its refusal.
// Nothing is asked of the record beforehand.
#![tactic(auto)]

ghost use Rattle.std.specs.Prelude.{◌≡◌};
ghost use Rattle.model.specs.Answers.{herd_answer, farm_answer};

use base::refusals::Refused;
use farm::{Farm, Herd};
use model::{FarmAnswer, HerdAnswer};

pub fn herd_answer(h: Herd) -> HerdAnswer
    ensures { result ≡ herd_answer h }
{
    match checks::check_herd(h) {
        Ok(()) => {
            let inputs = herd_inputs::typed_of(h);
            let figures = herd_figures::figures(inputs);
            HerdAnswer {
                checked: Ok(()),
                figures,
                kilograms: kilograms::kilograms_of(figures),
                notes: herd_notes::notes_of(inputs),
                cuts: herd_figures::cuts_of(inputs),
            }
        }
        Err(refused) => {
            let figures = sums::no_figures();
            HerdAnswer {
                checked: Err(refused),
                figures,
                kilograms: kilograms::kilograms_of(figures),
                notes: herd_notes::no_notes(),
                cuts: cut_numbers::no_cuts(),
            }
        }
    }
}

pub fn farm_answer(farm: Farm) -> FarmAnswer
    ensures { result ≡ farm_answer farm }
{
    match checks::check_farm(farm) {
        Ok(()) => {
            let totals = sums::totals_from(farm_sums::sum_of(farm));
            FarmAnswer {
                checked: Ok(()),
                totals,
                kilograms: kilograms::total_kilograms_of(totals),
            }
        }
        Err(refused) => {
            let totals = sums::totals_from(sums::no_figures());
            FarmAnswer {
                checked: Err(refused),
                totals,
                kilograms: kilograms::total_kilograms_of(totals),
            }
        }
    }
}
