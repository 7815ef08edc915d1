// What a command prints for a farm file, on standard output: what its view lists, or the refusal's line, in one piece.
// Nothing is printed after a part that could not be written.
#![tactic(auto)]

pub mod input; // the farm file on standard input
pub mod tell; // answers of other calls, a line each

ghost use Rattle.std.specs.Prelude.{◌<◌, ◌≤◌};
ghost use Rattle.views.specs.Rooms.{output_room};

use base::refusals::Refused;
use farm::Refusal;
use limits::Source;
use std::io::Error;
use streams::Outcome;
use views::{View, program};
pub use written::Written;

// What was printed: what the view lists of the farm, or the refusal's line; an error where not all of either was.
pub type Printed = Result<Written, Option<Error>>;

// The line of a refusal.
pub fn print_refusal(rt: &impl Print, refusal: Refusal, record: usize) -> Outcome {
    let mut line = [0u8; refusal_line::LINE_ROOM];
    let n = file_refusal_line::put_line(&mut line, refusal, record);
    streams::write_all(rt, base::part_of(&line, 0, n))
}

// What the view lists, by way of a buffer of N bytes. For each N it is a function of its own, so that the smaller
// buffer does not pay for the larger.
fn print_by<const N: usize>(rt: &impl Print, view: View, source: Source, s: &[u8]) -> Printed
    requires { (output_room source ≤ N) × (N < 9223372036854775808) }
{
    let mut put: [u8; N] = base::room();
    let output = program::put_output(source, s, &mut put, view);
    streams::write_all(rt, base::part_of(&put, 0, output.length))?;
    Ok(output.ended)
}

// What the view lists of a file, or the refusal's line.
pub fn print_view(rt: &impl Print, view: View, source: Source, s: &[u8]) -> Printed {
    match source {
        Source::StandardInput => print_by::<{ views::INPUT_ROOM }>(rt, view, source, s),
        Source::Cooperative => print_by::<{ views::COOPERATIVE_ROOM }>(rt, view, source, s),
    }
}
