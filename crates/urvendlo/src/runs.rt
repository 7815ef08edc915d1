// What each command does: the file is read, the answer printed, and of a refusal it is said what there is to say.
ghost use Rattle.std.specs.Prelude.{◌+◌, ◌≡◌, length};
ghost use Rattle.gate.specs.Logs.{log_most};
ghost use Rattle.limits.specs.Limits.{cooperative_bytes};
ghost use Rattle.streams.specs.Within.{Within};

use above_line::{Above, LineAnswer};
use base::refusals::Refused;
use console::{Ended, Surroundings, messages, named};
use editing::{Edited, Manner};
use gate::LogAnswer;
use limits::Source;
use printing::input;
use refused_input::FarmInput;
use streams::Outcome;
use views::View;

// A line of so many grams, and whether the answer is said in words, too.
#[derive(Clone, Copy, Debug, PartialEq, Eq)]
pub struct Line {
    pub grams: u64,
    pub in_words: bool,
}

// What is asked of a farm file: a view of it; or whether it is above a line. No Result: neither is a failure.
#[derive(Clone, Copy)]
pub enum Question {
    View(View),
    Line(Line),
}

fn answer_view(rt: &impl Surroundings, view: View, file: FarmInput<'_>) -> Ended {
    match printing::print_view(rt, view, file.source, file.bytes) {
        Ok(Ok(_)) => Ended::Printed,
        Ok(Err(Refused(refusal, record))) => { refused_input::of_farm(rt, file, refusal, record) }
        Err(error) => messages::unwritten(rt, error),
    }
}

fn tell_above(rt: &impl Surroundings, above: Above, grams: u64, name: usize) {
    match above {
        Above::Yes(count) => messages::screened(rt, name, true, grams, count),
        Above::No(count) => messages::screened(rt, name, false, grams, count),
    }
}

// What is said behind a line's answer that was printed.
fn end_line(rt: &impl Surroundings, ended: LineAnswer, line: Line, file: FarmInput<'_>) -> Ended {
    match ended {
        Ok(above) => {
            if line.in_words {
                tell_above(rt, above, line.grams, file.name);
            }
            Ended::Printed
        }
        Err(Refused(refusal, record)) => refused_input::of_farm(rt, file, refusal, record),
    }
}

fn answer_line(rt: &impl Surroundings, line: Line, file: FarmInput<'_>) -> Ended {
    let put = line_answer::answer_of(file.source, file.bytes, line.grams);
    match streams::write_all(rt, base::part_of(&put.bytes, 0, put.length)) {
        Ok(_) => end_line(rt, put.answer, line, file),
        Err(error) => messages::unwritten(rt, error),
    }
}

fn answer_farm(rt: &impl Surroundings, question: Question, file: FarmInput<'_>) -> Ended {
    match question {
        Question::View(view) => answer_view(rt, view, file),
        Question::Line(line) => answer_line(rt, line, file),
    }
}

// A farm file on standard input.
pub fn of_farm(rt: &impl Surroundings, question: Question, name: usize) -> Ended {
    let mut file: [u8; input::INPUT_MOST] = base::room();
    match input::read_file(rt, &mut file) {
        Ok(n) => answer_farm(rt, question, on_input(base::part_of(&file, 0, n), name)),
        Err(error) => messages::unread(rt, error),
    }
}

// A farm file that was read from standard input.
fn on_input(bytes: &[u8], name: usize) -> FarmInput<'_> {
    FarmInput {
        source: Source::StandardInput,
        bytes,
        name,
    }
}

// A cooperative's, that was read by its name.
fn by_name(bytes: &[u8], name: usize) -> FarmInput<'_> {
    FarmInput {
        source: Source::Cooperative,
        bytes,
        name,
    }
}

// One byte more than a cooperative's file may have, so that a longer one is seen.
const COOPERATIVE_MOST: usize = limits::COOPERATIVE_BYTES + 1;

// The whole file of that name; or, of a longer one, so much that it is refused as too long.
fn read_cooperative(rt: &impl Surroundings, name: usize, file: &mut [u8]) -> Outcome
    requires { length file.old ≡ cooperative_bytes + 1 }
    ensures { Within (length file.new) result }
{
    named::read_file(rt, name, file)
}

// A cooperative's file, by its name; where it cannot be read that is said.
pub fn of_cooperative(rt: &impl Surroundings, question: Question, name: usize) -> Ended {
    let mut file: [u8; COOPERATIVE_MOST] = base::room();
    match read_cooperative(rt, name, &mut file) {
        Ok(n) => answer_farm(rt, question, by_name(base::part_of(&file, 0, n), name)),
        Err(_) => Ended::Failed,
    }
}

// Where messages look for the name: a word that says standard input is none, and there is none at the largest number.
fn name_or_none(rt: &impl Surroundings, word: usize) -> usize {
    if asked::is_word(rt, word, asked::INPUT) {
        usize::MAX
    } else {
        word
    }
}

// The farm on standard input; a word that says so is not its name.
fn open_input(rt: &impl Surroundings, name: usize) -> Edited {
    let mut file: [u8; input::INPUT_MOST] = base::room();
    match input::read_file(rt, &mut file) {
        Ok(n) => editing::open(
            rt,
            on_input(base::part_of(&file, 0, n), name_or_none(rt, name)),
        ),
        Err(error) => editing::none(messages::unread(rt, error)),
    }
}

// A cooperative's farm, by its name.
fn open_cooperative(rt: &impl Surroundings, name: usize) -> Edited {
    let mut file: [u8; COOPERATIVE_MOST] = base::room();
    match read_cooperative(rt, name, &mut file) {
        Ok(n) => editing::open(rt, by_name(base::part_of(&file, 0, n), name)),
        Err(_) => editing::none(Ended::Failed),
    }
}

// The steps that stand behind the farm's name; the farm is on standard input.
pub fn of_edit(rt: &impl Surroundings, only_farm: bool, name: usize) -> Ended {
    let source = Source::StandardInput;
    let manner = Manner { source, only_farm };
    editing::run(rt, open_input(rt, name), manner, asked::after(name))
}

// The same of a cooperative's farm.
pub fn of_cooperative_edit(rt: &impl Surroundings, only_farm: bool, name: usize) -> Ended {
    let source = Source::Cooperative;
    let manner = Manner { source, only_farm };
    editing::run(rt, open_cooperative(rt, name), manner, asked::after(name))
}

// One byte more than a log may have, so that a longer one is seen.
const LOG_INPUT_MOST: usize = gate::LOG_MOST + 1;

// The whole log; or, of a longer one, so much that it is refused as too long.
fn read_log(rt: &impl Surroundings, log: &mut [u8]) -> Outcome
    requires { length log.old ≡ log_most + 1 }
    ensures { Within (length log.new) result }
{
    streams::read_all(rt, log)
}

fn end_log(rt: &impl Surroundings, answer: LogAnswer, s: &[u8], name: usize) -> Ended {
    match answer {
        Ok(_) => Ended::Printed,
        Err(Refused(refusal, record)) => refused_input::of_log(rt, s, name, refusal, record),
    }
}

fn answer_log(rt: &impl Surroundings, s: &[u8], name: usize) -> Ended {
    let put = gate_answer::answer_of(s);
    match streams::write_all(rt, base::part_of(&put.bytes, 0, put.length)) {
        Ok(_) => end_log(rt, put.answer, s, name),
        Err(error) => messages::unwritten(rt, error),
    }
}

// A gate's log on standard input.
pub fn of_log(rt: &impl Surroundings, name: usize) -> Ended {
    let mut log: [u8; LOG_INPUT_MOST] = base::room();
    match read_log(rt, &mut log) {
        Ok(n) => answer_log(rt, base::part_of(&log, 0, n), name),
        Err(error) => messages::unread(rt, error),
    }
}

// What is printed of mending a file: the list of its changes, or the mended file.
fn print_mending(rt: &impl Surroundings, s: &[u8], listed: bool) -> Ended {
    let printed = if listed {
        mend_print::print_changes(rt, s)
    } else {
        mend_print::print_mended(rt, s)
    };
    if printed {
        Ended::Printed
    } else {
        Ended::Failed
    }
}

// The file on standard input, mended, or what mending changes in it. Its lists take five megabytes of stack. Both
// commands call it, so the compiler leaves it a function of its own, and no other command pays for them.
pub fn of_mending(rt: &impl Surroundings, listed: bool) -> Ended {
    let mut file: [u8; mend_print::INPUT_MOST] = base::room();
    match mend_print::read_file(rt, &mut file) {
        Some(n) => print_mending(rt, base::part_of(&file, 0, n), listed),
        None => Ended::Failed,
    }
}
