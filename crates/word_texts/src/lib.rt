// A word of a list put into a buffer, by its place; and so the name of a value (02, W5). The words of a list are one
// text, as crate `words` finds them.
#![tactic(auto)]

ghost use Rattle.std.specs.Prelude.{◌≡◌, ◌+◌, ◌*◌, ◌≤◌, length, take};
ghost use Rattle.base.specs.Wrote.{Wrote};
ghost use Rattle.words.specs.Find.{room_of};
ghost use Rattle.word_texts.specs.Words.{word_at, name_text};

use names::{ValueList, lists};

// Where the word at a place starts: behind so many words, and a byte behind each.
fn start_of(lengths: &[u8], place: usize) -> usize
    requires { (place ≤ length lengths.now) × (length lengths.now ≤ 255) }
    ensures { (result ≡ room_of (take place lengths.now)) × (result ≤ 256 * place) }
{
    let mut at = 0;
    for len in &lengths[..place] {
        at += usize::from(*len) + 1;
    }
    at
}

// The word at a place; past the last nothing.
pub fn put_word(out: &mut [u8], at: usize, words: &[u8], lengths: &[u8], place: usize) -> usize
    requires { (length lengths.now ≤ 255) × (room_of lengths.now ≤ length words.now + 1)
        × (at + length (word_at words.now lengths.now place) ≤ length out.old) }
    ensures { Wrote out.old at (word_at words.now lengths.now place)
        out.new result }
{
    if lengths.len() <= place {
        return at;
    }
    let from = start_of(lengths, place);
    let to = from + usize::from(lengths[place]);
    base::put(out, at, &words[from..to])
}

// The name of a value at a place of its list.
pub fn put_name(out: &mut [u8], at: usize, names: ValueList, place: usize) -> usize
    requires { at + length (name_text names place) ≤ length out.old }
    ensures { Wrote out.old at (name_text names place) out.new result }
{
    match names {
        ValueList::Categories => put_word(
            out,
            at,
            &lists::CATEGORIES,
            &lists::CATEGORIES_LENGTHS,
            place,
        ),
        ValueList::Yards => put_word(out, at, &lists::YARDS, &lists::YARDS_LENGTHS, place),
        ValueList::Floors => put_word(out, at, &lists::FLOORS, &lists::FLOORS_LENGTHS, place),
        ValueList::HousingTypes => put_word(
            out,
            at,
            &lists::HOUSING_TYPES,
            &lists::HOUSING_TYPES_LENGTHS,
            place,
        ),
        ValueList::AirScrubbers => put_word(
            out,
            at,
            &lists::AIR_SCRUBBERS,
            &lists::AIR_SCRUBBERS_LENGTHS,
            place,
        ),
        ValueList::HousingFloors => put_word(
            out,
            at,
            &lists::HOUSING_FLOORS,
            &lists::HOUSING_FLOORS_LENGTHS,
            place,
        ),
        ValueList::HousingAirs => put_word(
            out,
            at,
            &lists::HOUSING_AIRS,
            &lists::HOUSING_AIRS_LENGTHS,
            place,
        ),
    }
}
