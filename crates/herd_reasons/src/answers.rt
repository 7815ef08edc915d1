// The reason of a herd's record, or the refusal: 01's for a herd's record, then 10 for a herd of a kind without a yard.
// Nothing is asked of the record beforehand.
ghost use Rattle.std.specs.Prelude.{◌≡◌};
ghost use Rattle.reasons.specs.Answers.{told_answer, reason_answer};

use base::refusals::Refused;
use farm::{Herd, Refusal};
use reasons::{ReasonAnswer, Why};

// Of an accepted herd that is told this.
fn told_answer(told: Option<Why>) -> ReasonAnswer
    ensures { result ≡ told_answer told }
{
    match told {
        Some(why) => Ok(Some(why)),
        None => Err(Refused(Refusal::OtherKind, 0)),
    }
}

pub fn herd_reason(h: Herd) -> ReasonAnswer
    ensures { result ≡ reason_answer h }
{
    checks::check_herd(h)?;
    told_answer(crate::told_of(herd_inputs::typed_of(h)))
}
