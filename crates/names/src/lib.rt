// The names that a value may be (01, The farm file), list by list, and which name of its list a text is.
#![tactic(auto)]

pub mod lists; // the lists as words

ghost use Rattle.std.specs.Prelude.{◌≡◌};
ghost use Rattle.names.specs.Names.{size_of};
ghost use Rattle.names.specs.Find.{find_name};

// The lists. A new one is a list in specs/Names.antt, a variant here and its two arms: how many names it has, and its
// names as words. A name of another length is passed by in one step.
#[derive(Clone, Copy, Debug, PartialEq, Eq)]
pub enum ValueList {
    Categories,
    Yards,
    Floors,
    HousingTypes,
    AirScrubbers,
    HousingFloors,
    HousingAirs,
}

// How many names a list has.
pub fn size_of(names: ValueList) -> usize
    ensures { result ≡ size_of names }
{
    match names {
        ValueList::Categories => lists::CATEGORIES_COUNT,
        ValueList::Yards => lists::YARDS_COUNT,
        ValueList::Floors => lists::FLOORS_COUNT,
        ValueList::HousingTypes => lists::HOUSING_TYPES_COUNT,
        ValueList::AirScrubbers => lists::AIR_SCRUBBERS_COUNT,
        ValueList::HousingFloors => lists::HOUSING_FLOORS_COUNT,
        ValueList::HousingAirs => lists::HOUSING_AIRS_COUNT,
    }
}

// Which name of the list a text is, counted from 0.
pub fn find_name(names: ValueList, text: &[u8]) -> Option<usize>
    ensures { result ≡ find_name names text.now }
{
    match names {
        ValueList::Categories => words::find_word(
            text,
            &lists::CATEGORIES,
            &lists::CATEGORIES_LENGTHS,
        ),
        ValueList::Yards => words::find_word(text, &lists::YARDS, &lists::YARDS_LENGTHS),
        ValueList::Floors => words::find_word(text, &lists::FLOORS, &lists::FLOORS_LENGTHS),
        ValueList::HousingTypes => words::find_word(
            text,
            &lists::HOUSING_TYPES,
            &lists::HOUSING_TYPES_LENGTHS,
        ),
        ValueList::AirScrubbers => words::find_word(
            text,
            &lists::AIR_SCRUBBERS,
            &lists::AIR_SCRUBBERS_LENGTHS,
        ),
        ValueList::HousingFloors => words::find_word(
            text,
            &lists::HOUSING_FLOORS,
            &lists::HOUSING_FLOORS_LENGTHS,
        ),
        ValueList::HousingAirs => words::find_word(
            text,
            &lists::HOUSING_AIRS,
            &lists::HOUSING_AIRS_LENGTHS,
        ),
    }
}
