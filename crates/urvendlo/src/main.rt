// The program: urvendlo [--status-fd N] [COMMAND] [NAME]. The file is standard input, and NAME is for messages alone;
// with --cooperative before or behind it, NAME is the file, which is opened and may be larger. Of edit, whose options
// stand in front, --farm first, NAME is given always, and the steps behind it. Standard output has what the command
// prints, or the refusal's line. Standard error has what is to be said of it, in whole lines. How the run ended goes as
// one digit, after all output, to the descriptor that --status-fd names.
#![tactic(auto)]

mod runs; // what each command does

use crate::runs::{Line, Question};
use asked::commands;
use asked::commands::Command;
use console::{Ended, Surroundings, messages};
use views::View;

// What is done with a file.
#[derive(Clone, Copy)]
enum Job {
    Farm(Question),
    Log,
    Mend,
    Changes,
}

// The job on standard input; the word at `name` is for messages.
fn run_on_input(rt: &impl Surroundings, job: Job, name: usize) -> Ended {
    match job {
        Job::Farm(question) => runs::of_farm(rt, question, name),
        Job::Log => runs::of_log(rt, name),
        Job::Mend => runs::of_mending(rt, false),
        Job::Changes => runs::of_mending(rt, true),
    }
}

// Of a command that reads no farm file.
fn not_of_farms(rt: &impl Surroundings, command: usize) -> Ended {
    messages::misused(
        rt,
        b"--cooperative is of commands that read a farm file, and not of ",
        command,
    )
}

// What is asked of the file that the word at `name` names.
fn run_by_name(rt: &impl Surroundings, question: Question, name: usize) -> Ended {
    if asked::is_past(rt, name) {
        return messages::misused(rt, b"--cooperative takes the name of a file", name);
    }
    if asked::is_word(rt, name, asked::INPUT) {
        return messages::misused(
            rt,
            b"--cooperative takes the name of a file, and not ",
            name,
        );
    }
    runs::of_cooperative(rt, question, name)
}

// The job with the option --cooperative.
fn run_on_cooperative(rt: &impl Surroundings, job: Job, command: usize, name: usize) -> Ended {
    match job {
        Job::Farm(question) => run_by_name(rt, question, name),
        Job::Log | Job::Mend | Job::Changes => not_of_farms(rt, command),
    }
}

// The option once more than it may be given, or a second name.
fn one_more(rt: &impl Surroundings, at: usize) -> Ended {
    if asked::is_word(rt, at, asked::COOPERATIVE) {
        messages::misused(rt, b"given twice: ", at)
    } else {
        messages::misused(rt, b"more than one name, the second is ", at)
    }
}

// A job that the word at `command` asks for; from `next` on stand the file's name and the option.
fn run_job(rt: &impl Surroundings, job: Job, command: usize, next: usize) -> Ended {
    let file = asked::file_at(rt, next);
    if asked::is_word(rt, file.name, asked::COOPERATIVE) {
        return one_more(rt, file.name);
    }
    if !asked::is_past(rt, file.end) {
        return one_more(rt, file.end);
    }
    if asked::is_too_long(rt, file.name) {
        return messages::misused(rt, b"the name has more than 4,096 bytes", file.end);
    }
    if file.cooperative {
        run_on_cooperative(rt, job, command, file.name)
    } else {
        run_on_input(rt, job, file.name)
    }
}

fn run_view(rt: &impl Surroundings, view: View, command: usize, next: usize) -> Ended {
    run_job(rt, Job::Farm(Question::View(view)), command, next)
}

fn run_why(rt: &impl Surroundings, command: usize) -> Ended {
    let next = asked::after(command);
    if asked::is_word(rt, next, asked::WORDS) {
        run_view(rt, View::Sentences, command, asked::after(next))
    } else {
        run_view(rt, View::Reasons, command, next)
    }
}

// A word that says no grams, or that is missing.
fn no_grams(rt: &impl Surroundings, at: usize) -> Ended {
    if asked::is_past(rt, at) {
        messages::misused(rt, b"line takes a number of grams", at)
    } else {
        messages::misused(
            rt,
            b"no whole number of grams from 0 to 18446744073709551615: ",
            at,
        )
    }
}

// The word at `at` says the grams of the line.
fn run_line_at(rt: &impl Surroundings, in_words: bool, command: usize, at: usize) -> Ended {
    match asked::grams_at(rt, at) {
        Some(grams) => run_job(
            rt,
            Job::Farm(Question::Line(Line { grams, in_words })),
            command,
            asked::after(at),
        ),
        None => no_grams(rt, at),
    }
}

fn run_line(rt: &impl Surroundings, command: usize) -> Ended {
    let next = asked::after(command);
    if asked::is_word(rt, next, asked::WORDS) {
        run_line_at(rt, true, command, asked::after(next))
    } else {
        run_line_at(rt, false, command, next)
    }
}

// Is it a word that says a step?
fn is_step(rt: &impl Surroundings, at: usize) -> bool {
    asked::is_word(rt, at, asked::ADD)
        || asked::is_word(rt, at, asked::REPLACE)
        || asked::is_word(rt, at, asked::REMOVE)
}

// What is wrong with the word at `at`, of which there are so many from there on.
fn no_step(rt: &impl Surroundings, at: usize, left: usize) -> Ended {
    if left == 1 && is_step(rt, at) {
        messages::misused(rt, b"nothing stands behind the step ", at)
    } else {
        messages::misused(rt, b"no step, which is add, replace or remove: ", at)
    }
}

// Where the first word stands that is no step, or past all words: a step is a word and another behind it.
fn after_steps(rt: &impl Surroundings, first: usize) -> usize {
    let mut at = first;
    for _ in 0..asked::count_from(rt, first) / 2 {
        if !is_step(rt, at) {
            return at;
        }
        at = asked::after(asked::after(at));
    }
    at
}

fn run_edit_of(rt: &impl Surroundings, only_farm: bool, cooperative: bool, name: usize) -> Ended {
    let first = asked::after(name);
    let end = after_steps(rt, first);
    if asked::is_past(rt, first) {
        return messages::misused(rt, b"edit takes a farm file and steps", first);
    }
    if !asked::is_past(rt, end) {
        return no_step(rt, end, asked::count_from(rt, end));
    }
    if asked::is_too_long(rt, name) {
        return messages::misused(rt, b"the name has more than 4,096 bytes", end);
    }
    if !cooperative {
        return runs::of_edit(rt, only_farm, name);
    }
    if asked::is_word(rt, name, asked::INPUT) {
        return messages::misused(
            rt,
            b"--cooperative takes the name of a file, and not ",
            name,
        );
    }
    runs::of_cooperative_edit(rt, only_farm, name)
}

// The farm's file and the steps, with --cooperative in front of them or without.
fn run_edit_at(rt: &impl Surroundings, only_farm: bool, next: usize) -> Ended {
    if asked::is_word(rt, next, asked::COOPERATIVE) {
        run_edit_of(rt, only_farm, true, asked::after(next))
    } else {
        run_edit_of(rt, only_farm, false, next)
    }
}

// Before all of that --farm may stand.
fn run_edit(rt: &impl Surroundings, next: usize) -> Ended {
    if asked::is_word(rt, next, asked::FARM) {
        run_edit_at(rt, true, asked::after(next))
    } else {
        run_edit_at(rt, false, next)
    }
}

fn run_help(rt: &impl Surroundings, next: usize) -> Ended {
    if asked::is_past(rt, next) {
        return messages::help(rt, texts::HELP);
    }
    let behind = asked::after(next);
    if !asked::is_past(rt, behind) {
        return messages::misused(rt, b"help takes one command, and not also ", behind);
    }
    match asked::command_at(rt, next) {
        Some(page) => messages::help(rt, page),
        None => messages::misused(rt, b"there is no command ", next),
    }
}

// The command that the word at `at` names.
fn run_command(rt: &impl Surroundings, command: Command, at: usize) -> Ended {
    let next = asked::after(at);
    match command {
        Command::Figures => run_view(rt, View::Figures, at, next),
        Command::Notes => run_view(rt, View::Notes, at, next),
        Command::Cuts => run_view(rt, View::Cuts, at, next),
        Command::Why => run_why(rt, at),
        Command::Line => run_line(rt, at),
        Command::Write => run_view(rt, View::File, at, next),
        Command::Edit => run_edit(rt, next),
        Command::Gate => run_job(rt, Job::Log, at, next),
        Command::Mend => run_job(rt, Job::Mend, at, next),
        Command::Changes => run_job(rt, Job::Changes, at, next),
        Command::Help => run_help(rt, next),
        Command::OfLauncher => messages::misused(rt, b"only ./urvendlo has the command ", at),
    }
}

// The words of the command line from this one on.
fn run(rt: &impl Surroundings, first: usize) -> Ended {
    if asked::is_past(rt, first) || asked::is_word(rt, first, asked::COOPERATIVE) {
        return run_view(rt, View::Figures, first, first);
    }
    match asked::command_at(rt, first) {
        Some(page) => run_command(rt, commands::command_of(page), first),
        None => messages::misused(rt, b"there is no command ", first),
    }
}

// The words behind --status-fd and its number.
fn run_and_tell(rt: &impl Surroundings) {
    match asked::descriptor_at(rt, 2) {
        Some(fd) => messages::tell_status(rt, fd, run(rt, 3)),
        None => {
            messages::misused(rt, b"--status-fd takes a descriptor's number, and not ", 2);
        }
    }
}

fn main(rt: HostRuntime) {
    if asked::is_word(&rt, 1, asked::STATUS) {
        run_and_tell(&rt);
    } else {
        run(&rt, 1);
    }
}
