// The herd that a step is handed: the one of a file, or for a removal the label alone. Where there is none, that is
// said, and printed unless only the farm's file is.
use crate::Manner;
use base::refusals::Refused;
use console::{Ended, Surroundings, messages, named};
use farm::{Farm, Herd, LABEL_MOST, Refusal, herds, labels};
use refused_input::FarmInput;

// A herd; or, where the run ended otherwise than printed, none.
#[derive(Clone, Copy)]
pub struct Handed {
    pub herd: Herd,
    pub ended: Ended,
}

// One byte more than the longest file may have, so that a longer one is seen.
const FILE_MOST: usize = limits::COOPERATIVE_BYTES + 1;

fn none(ended: Ended) -> Handed {
    Handed {
        herd: herds::no_herd(),
        ended,
    }
}

// The herd of a farm that has one.
fn only_herd(rt: &impl Surroundings, farm: Farm, name: usize) -> Handed {
    if farm.count != 1 {
        return none(messages::not_one_herd(rt, name, farm.count));
    }
    Handed {
        herd: farm.herds[0],
        ended: Ended::Printed,
    }
}

// A file that is refused.
fn refused(
    rt: &impl Surroundings,
    only_farm: bool,
    file: FarmInput<'_>,
    refusal: Refusal,
    record: usize,
) -> Ended {
    if only_farm {
        refused_input::of_farm(rt, file, refusal, record)
    } else {
        crate::print_refused(rt, file, refusal, record)
    }
}

// The herd of a file, unless that is refused.
fn in_file(rt: &impl Surroundings, only_farm: bool, file: FarmInput<'_>) -> Handed {
    let answer = farm_file::read(file.source, file.bytes);
    match answer.checked {
        Ok(()) => only_herd(rt, answer.farm, file.name),
        Err(Refused(refusal, record)) => none(refused(rt, only_farm, file, refusal, record)),
    }
}

// The herd of the file that the word at `name` names, by the same limits as the farm's.
pub fn by_file(rt: &impl Surroundings, manner: Manner, name: usize) -> Handed {
    let mut file: [u8; FILE_MOST] = base::room();
    match named::read_file(rt, name, &mut file) {
        Ok(n) => {
            let read = FarmInput {
                source: manner.source,
                bytes: base::part_of(&file, 0, n),
                name,
            };
            in_file(rt, manner.only_farm, read)
        }
        Err(_) => none(Ended::Failed),
    }
}

// The label that a word is, and nothing else of a herd. A longer word than there is room for is no label.
pub fn by_label(rt: &impl Surroundings, word: usize) -> Handed {
    let mut given = [0u8; LABEL_MOST + 1];
    let n = asked::word_at(rt, word, &mut given);
    let mut herd = herds::no_herd();
    herd.label = labels::label_of(&given[..n]);
    Handed {
        herd,
        ended: Ended::Printed,
    }
}
