// The calls on a herd's record that is handed in: its figures, why a yard has its share, and what a view lists of it,
// into a lent buffer; and the totals' listing of a farm by value, for the calls that have read or loaded one. A record
// of any content is answered, with exactly one refusal or with what is asked for; what the checks refuse comes before
// 13.
#![tactic(auto)]

mod writing; // into the lent buffer, or refusal 13

ghost use Rattle.std.specs.Prelude.{◌≡◌};
ghost use Rattle.model.specs.Answers.{herd_answer};
ghost use Rattle.reasons.specs.Answers.{reason_answer};
ghost use Rattle.contracts.specs.Listings.{Called, herd_call, totals_call};

use farm::{Farm, Herd};
use model::HerdAnswer;
use reasons::ReasonAnswer;
use views::View;
use written::Written;

// A herd's figures in grams and in kilograms, notes and cuts, or the refusal and zeros.
pub fn herd_figures(h: Herd) -> HerdAnswer
    ensures { result ≡ herd_answer h }
{
    answers::herd_answer(h)
}

// Why a herd's yard has its share on days with both, from its record; or the refusal.
pub fn herd_reason(h: Herd) -> ReasonAnswer
    ensures { result ≡ reason_answer h }
{
    herd_reasons::answers::herd_reason(h)
}

// What the view lists of a herd, from its record.
pub fn herd_view(view: View, h: Herd, out: &mut [u8]) -> Written
    ensures { Called (herd_call view h) out.old out.new result }
{
    checks::check_herd(h)?;
    writing::write_herd(out, h, view)
}

// The totals' listing of a farm by value.
pub fn totals_by_value(f: Farm, out: &mut [u8]) -> Written
    ensures { Called (totals_call f) out.old out.new result }
{
    let answer = answers::farm_answer(f);
    answer.checked?;
    writing::write_totals(out, answer.totals)
}
