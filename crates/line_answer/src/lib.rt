// What a farm file is answered with where a line is given (02, W8), put together as bytes: yes or no and the count, or
// the line of the refusal.
#![tactic(auto)]

ghost use Rattle.line_answer.specs.Program.{Puts};

use above_line::LineAnswer;
use limits::Source;

// An answer, and its bytes from the front on; those behind them are zeros.
#[derive(Clone, Copy, Debug, PartialEq, Eq)]
pub struct PutLine {
    pub answer: LineAnswer,
    pub bytes: [u8; lines_above::ANSWER_ROOM],
    pub length: usize,
}

// The answer of a file, and what the program prints for it.
pub fn answer_of(source: Source, s: &[u8], line: u64) -> PutLine
    ensures { Puts source s.now line result }
{
    let answer = line_calls::file_above_line(source, s, line);
    let mut bytes = [0u8; lines_above::ANSWER_ROOM];
    let length = lines_above::put_answer(&mut bytes, answer);
    PutLine {
        answer,
        bytes,
        length,
    }
}
