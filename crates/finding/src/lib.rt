// An input of 01's list, found by a record's module and name: by its module first, whose inputs are a stretch of its
// kind's, then by its name among those.
#![tactic(auto)]

ghost use Rattle.std.specs.Prelude.{◌≡◌, Some};
ghost use Rattle.finding.specs.Find.{find_input, find_placed, find_within};
ghost use Rattle.words.specs.Find.{Found};

use inputs::{Form, Input, Kind};
use words::modules;

// The module at a place of the modules.
fn module_at(place: usize) -> Option<(Kind, usize, usize)>
    ensures { (name : Found) → find_placed (Some place) name ≡ find_within result name }
{
    match place {
        modules::ROUGHAGE_CONSUMING_EXCRETION => Some((Kind::Roughage, 0, 4)),
        modules::ROUGHAGE_CONSUMING_HOUSING_CFREE_FACTOR => Some((Kind::Roughage, 4, 5)),
        modules::ROUGHAGE_CONSUMING_GRAZING => Some((Kind::Roughage, 5, 7)),
        modules::OTHER_CATTLE_EXCRETION => Some((Kind::Cattle, 0, 3)),
        modules::OTHER_CATTLE_OUTDOOR => Some((Kind::Cattle, 3, 9)),
        modules::FATTENING_PIGS_EXCRETION => Some((Kind::Pigs, 0, 3)),
        modules::FATTENING_PIGS_HOUSING_TYPE => Some((Kind::Pigs, 3, 4)),
        modules::FATTENING_PIGS_HOUSING_AIR_SCRUBBER => Some((Kind::Pigs, 4, 5)),
        modules::FATTENING_PIGS_HOUSING_MITIGATION_OPTIONS => Some((Kind::Pigs, 5, 7)),
        modules::FATTENING_PIGS_HOUSING_CFREE_FACTOR => Some((Kind::Pigs, 7, 8)),
        modules::DAIRY_COW_EXCRETION => Some((Kind::DairyCow, 0, 3)),
        modules::DAIRY_COW_OUTDOOR => Some((Kind::DairyCow, 3, 9)),
        _ => None,
    }
}

// The input whose name has this place, among those of a kind that have these slots.
fn find_within(kind: Kind, from: usize, to: usize, name: usize) -> Option<(Kind, usize, Form)>
    ensures { result ≡ find_within (Some (kind, «from», to)) (Some name) }
{
    for slot in from..to {
        let Input(own, form) = inputs::input_at(kind, slot);
        if own == name {
            return Some((kind, slot, form));
        }
    }
    None
}

// The input of this module and name: by its module first, then among the inputs of that.
pub fn find_input(path: &[u8], name: &[u8]) -> Option<(Kind, usize, Form)>
    ensures { result ≡ find_input path.now name.now }
{
    let module = words::find_module(path)?;
    let place = words::find_input_name(name)?;
    let (kind, from, to) = module_at(module)?;
    find_within(kind, from, to, place)
}
