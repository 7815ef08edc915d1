// How far reading a file came, by the refusal that it got; and whether it came further than another time.
#![tactic(auto)]

ghost use Rattle.std.specs.Prelude.{◌≡◌};
ghost use Rattle.base.specs.Pick.{pick};
ghost use Rattle.reach.specs.declared.Reach.TheVariants.{At, End};
ghost use Rattle.reach.specs.Reach.{reach_of, further};

// How far reading a file came: not into it, since it is too long; to a record that is refused; to the end, where
// something is missing; or through it.
#[derive(Clone, Copy, Debug, PartialEq, Eq)]
pub enum Reach {
    TooLong,
    At(usize),
    End,
    Through,
}

// The refusals that name no record that reading came to: the file is too long; at its end an input is missing, or days
// are.
const FILE_TOO_LONG: u64 = 1;

const INPUT_MISSING: u64 = 12;

const WRONG_DATE: u64 = 14;

// By a refusal's number and its record.
#[tactic(auto, using(base::proofs::Picks::picks), unfolding(crate::specs::Reach::reach_of))]
pub fn reach_of(number: u64, record: usize) -> Reach
    ensures { result ≡ reach_of number «record» }
{
    match number {
        FILE_TOO_LONG => Reach::TooLong,
        INPUT_MISSING => Reach::End,
        WRONG_DATE if record == 0 => Reach::End,
        _ => Reach::At(record),
    }
}

// Did reading come further the second time? A file that is too long was not read.
fn is_further(before: Reach, after: Reach) -> bool
    ensures { result ≡ further before after }
{
    match (before, after) {
        (Reach::At(n), Reach::At(m)) => n < m,
        (Reach::At(_), Reach::End | Reach::Through) | (Reach::End, Reach::Through) => true,
        _ => false,
    }
}

// The number where reading came further, else 0.
#[tactic(auto, using(base::proofs::Picks::picks))]
pub fn if_further(before: Reach, after: Reach, changes: usize) -> usize
    ensures { result ≡ pick (further before after) changes 0 }
{
    if is_further(before, after) {
        changes
    } else {
        0
    }
}
