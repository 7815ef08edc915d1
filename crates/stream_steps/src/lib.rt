// What a call of the system gave, of reading or writing a stream, and what to do after it: decided by functions that
// are proved to be the definitions of specs/Steps.antt.
#![tactic(auto)]

ghost use Rattle.std.specs.Prelude.{◌≡◌, None};
ghost use Rattle.stream_steps.specs.Steps.{fault_of, moved_of, onward_of, after_call, after_read, after_write};

use std::io::{Error, ErrorKind, Result};

// What one read or write gave: so many bytes; none, which is the end of an input; a signal or a stream that was not
// ready; or an error.
#[derive(Clone, Copy, Debug)]
pub enum Moved {
    Bytes(usize),
    Nothing,
    Again(Error),
    Failed(Error),
}

// What to do next: go on from a place, try once more, or stop, after so many bytes or with an error. Where the system
// has none to name, as of an output that takes nothing, there is none.
#[derive(Clone, Copy, Debug)]
pub enum Step {
    On(usize),
    Wait(Error),
    Done(usize),
    Broken(Option<Error>),
}

fn fault(error: Error) -> Moved
    ensures { result ≡ fault_of error }
{
    match error.kind() {
        ErrorKind::Interrupted | ErrorKind::WouldBlock => Moved::Again(error),
        _ => Moved::Failed(error),
    }
}

// The answer of a read or a write.
pub fn meaning(answer: Result<usize>) -> Moved
    ensures { result ≡ moved_of answer }
{
    match answer {
        Ok(0) => Moved::Nothing,
        Ok(n) => Moved::Bytes(n),
        Err(error) => fault(error),
    }
}

fn onward(done: usize, size: usize, n: usize) -> Step
    ensures { result ≡ onward_of done size n }
{
    if size < done || size - done < n {
        Step::Broken(None)
    } else if done + n == size {
        Step::Done(size)
    } else {
        Step::On(done + n)
    }
}

// After a call that was to move the bytes from `done` on, of `size`. `none` is what it means that it moved none.
fn after_call(done: usize, size: usize, none: Step, moved: Moved) -> Step
    ensures { result ≡ after_call done size «none» moved }
{
    match moved {
        Moved::Bytes(n) => onward(done, size, n),
        Moved::Nothing => none,
        Moved::Again(error) => Step::Wait(error),
        Moved::Failed(error) => Step::Broken(Some(error)),
    }
}

pub fn after_read(done: usize, size: usize, moved: Moved) -> Step
    ensures { result ≡ after_read done size moved }
{
    after_call(done, size, Step::Done(done), moved)
}

pub fn after_write(done: usize, size: usize, moved: Moved) -> Step
    ensures { result ≡ after_write done size moved }
{
    after_call(done, size, Step::Broken(None), moved)
}
