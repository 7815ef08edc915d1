// What is said of a refused file on standard error: the refusal in words, and what may help.
#![tactic(auto)]

use console::{Ended, Surroundings, messages};
use farm::Refusal;
use gate_days::LogRefusal;
use hints::Input;
use limits::Source;

// A farm file that was read: by the limits of where it comes from, its bytes, and the word of the command line that
// names it in messages.
#[derive(Clone, Copy, Debug, PartialEq, Eq)]
pub struct FarmInput<'a> {
    pub source: Source,
    pub bytes: &'a [u8],
    pub name: usize,
}

// The command `mend`, where it helps a refused file.
fn hint(rt: &impl Surroundings, kind: Input, s: &[u8], name: usize) -> Ended {
    let changes = hints::hint(kind, s);
    if changes > 0 {
        messages::hinted(rt, name, changes);
    }
    Ended::Refused
}

// Is a farm file of standard input too large, by its bytes or by its herds?
fn is_too_large(source: Source, refusal: Refusal) -> bool {
    source == Source::StandardInput
        && matches!(refusal, Refusal::FileTooLong | Refusal::NoRoomForHerd)
}

// A farm file. Where it is too large without the option --cooperative, that is named too.
pub fn of_farm(
    rt: &impl Surroundings,
    file: FarmInput<'_>,
    refusal: Refusal,
    record: usize,
) -> Ended {
    let number = refusal_numbers::number_of(refusal);
    messages::refused(rt, file.source, file.name, number, record);
    if is_too_large(file.source, refusal) {
        messages::larger(rt);
    }
    hint(rt, Input::Farm(file.source), file.bytes, file.name)
}

// A gate's log.
pub fn of_log(
    rt: &impl Surroundings,
    s: &[u8],
    name: usize,
    refusal: LogRefusal,
    record: usize,
) -> Ended {
    let number = gate_days::faults::number_of(refusal);
    messages::refused(rt, Source::StandardInput, name, number, record);
    hint(rt, Input::Log, s, name)
}
