// What a gate's log is answered with, put together as bytes: its three lines, or the line of the refusal.
#![tactic(auto)]

ghost use Rattle.std.specs.Prelude.{◌≡◌, ◌≤◌, length};
ghost use Rattle.base.specs.Wrote.{Wrote};
ghost use Rattle.gate_answer.specs.Lines.{answer_lines};
ghost use Rattle.gate_answer.specs.Program.{answer_room, answer_of};

use base::refusals::Refused;
use gate::{LogAnswer, logs};
use gate_days::faults;

// Longer than any answer: the three lines are the longest.
pub const ANSWER_ROOM: usize = lines_outdoors::LINES_ROOM;

// An answer, and its bytes from the front on; those behind them are zeros.
#[derive(Clone, Copy, Debug, PartialEq, Eq)]
pub struct PutAnswer {
    pub answer: LogAnswer,
    pub bytes: [u8; ANSWER_ROOM],
    pub length: usize,
}

#[tactic(auto, using(crate::proofs::LineSteps::line_steps))]
fn put_lines(out: &mut [u8], answer: LogAnswer) -> usize
    requires { answer_room ≤ length out.old }
    ensures { Wrote out.old 0 (answer_lines answer) out.new result }
{
    match answer {
        Ok(o) => lines_outdoors::put_outdoors(out, o),
        Err(Refused(refusal, record)) => {
            refusal_line::put_refusal(out, faults::number_of(refusal), record)
        }
    }
}

// The answer of a log, and what the program prints for it.
pub fn answer_of(s: &[u8]) -> PutAnswer
    ensures { result ≡ answer_of s.now }
{
    let answer = logs::read(s);
    let mut bytes = [0u8; ANSWER_ROOM];
    let length = put_lines(&mut bytes, answer);
    PutAnswer {
        answer,
        bytes,
        length,
    }
}
