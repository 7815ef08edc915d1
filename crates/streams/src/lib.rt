// A stream read to its end, and a text written to standard output: whole, or it is said that it failed. What to do
// after a call of the system, crate `stream_steps` decides.
#![tactic(auto)]

pub mod telling; // lines on standard error, and what failed

ghost use Rattle.std.specs.Prelude.{◌<◌, ◌≤◌, length};
ghost use Rattle.streams.specs.Within.{Counted, Within, All, Going};

use std::io::{Error, Read};
use std::thread;
use stream_steps::{Moved, Step};

// How a whole reading or writing ends: after so many bytes, or with an error, where the system has one to name.
pub type Outcome = Result<usize, Option<Error>>;

// How often in a row a call is made again before it counts as failed.
const PATIENCE: usize = 20000000;

fn read_some(input: &mut impl Read, into: &mut [u8]) -> Moved
    ensures { Counted (length into.old) result }
{
    stream_steps::meaning(input.read(into))
}

fn write_some(output: &impl Print, text: &[u8]) -> Moved
    ensures { Counted (length text.now) result }
{
    stream_steps::meaning(output.write_some(text))
}

#[tactic(auto, using(crate::proofs::Moves::read_goes))]
fn read_step(input: &mut impl Read, into: &mut [u8], done: usize) -> Step
    requires { done ≤ length into.old }
    ensures { Going (Within (length into.old)) done (length into.old) result }
{
    let size = into.len();
    let moved = read_some(input, &mut into[done..]);
    stream_steps::after_read(done, size, moved)
}

#[tactic(auto, using(crate::proofs::Moves::write_goes))]
fn write_step(output: &impl Print, text: &[u8], done: usize) -> Step
    requires { (0 < length text.now) × (done ≤ length text.now) }
    ensures { Going (All (length text.now)) done (length text.now) result }
{
    let moved = write_some(output, &text[done..]);
    stream_steps::after_write(done, text.len(), moved)
}

// What the input gives, to its end or until the buffer is full.
#[tactic(auto, using(crate::proofs::Moves::turn_steps))]
pub fn read_from(input: &mut impl Read, into: &mut [u8]) -> Outcome
    ensures { Within (length into.new) result }
{
    let mut done = 0;
    let mut patience = PATIENCE;
    let mut last = None;
    while patience > 0 {
        match read_step(input, into, done) {
            Step::On(next) => {
                done = next;
                patience = PATIENCE;
            }
            Step::Wait(error) => {
                thread::yield_now();
                patience -= 1;
                last = Some(error);
            }
            Step::Done(n) => return Ok(n),
            Step::Broken(error) => return Err(error),
        }
    }
    Err(last)
}

// The same of standard input.
pub fn read_all(rt: &impl Input, into: &mut [u8]) -> Outcome
    ensures { Within (length into.new) result }
{
    read_from(&mut rt.reader(), into)
}

// A text to standard output, all of it.
#[tactic(auto, using(crate::proofs::Moves::turn_steps))]
pub fn write_all(output: &impl Print, text: &[u8]) -> Outcome
    ensures { All (length text.now) result }
{
    if text.is_empty() {
        return Ok(0);
    }
    let mut done = 0;
    let mut patience = PATIENCE;
    let mut last = None;
    while patience > 0 {
        match write_step(output, text, done) {
            Step::On(next) => {
                done = next;
                patience = PATIENCE;
            }
            Step::Wait(error) => {
                thread::yield_now();
                patience -= 1;
                last = Some(error);
            }
            Step::Done(n) => return Ok(n),
            Step::Broken(error) => return Err(error),
        }
    }
    Err(last)
}
