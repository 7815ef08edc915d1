// When mending is worth trying on a refused farm file, or a refused log: where the mended file is accepted, or refused
// further on.
#![tactic(auto)]

ghost use Rattle.std.specs.Prelude.{◌≡◌, ◌*◌, ◌≤◌, length};
ghost use Rattle.base.specs.Wrote.{Wrote};
ghost use Rattle.spreadsheet.specs.Mended.{mended_of};
ghost use Rattle.hints.specs.Hint.{farm_reach, log_reach, read_to, hint_of};

use base::refusals::Refused;
use gate::logs;
use limits::Source;
use reach::Reach;

// What a file is read as: a farm, by the limits of where it comes from, or a gate's log. No Option: a log is not the
// lack of a farm.
#[derive(Clone, Copy, Debug, PartialEq, Eq)]
pub enum Input {
    Farm(Source),
    Log,
}

// No file that is read is longer, whatever it is read as.
const FILE_MOST: usize = limits::COOPERATIVE_BYTES;

// Every byte may be a bare LF.
const MENDED_MOST: usize = 2 * FILE_MOST;

fn farm_reach(source: Source, s: &[u8]) -> Reach
    ensures { result ≡ farm_reach source s.now }
{
    match farm_file::read(source, s).checked {
        Ok(()) => Reach::Through,
        Err(Refused(refusal, record)) => reach::reach_of(
            refusal_numbers::number_of(refusal),
            record,
        ),
    }
}

fn log_reach(s: &[u8]) -> Reach
    ensures { result ≡ log_reach s.now }
{
    match logs::read(s) {
        Ok(_) => Reach::Through,
        Err(Refused(refusal, record)) => reach::reach_of(
            gate_days::faults::number_of(refusal),
            record,
        ),
    }
}

fn read_to(input: Input, s: &[u8]) -> Reach
    ensures { result ≡ read_to input s.now }
{
    match input {
        Input::Farm(source) => farm_reach(source, s),
        Input::Log => log_reach(s),
    }
}

// The mended file from the front of the slice on, and its length. No list is asked for, which would be eight times as
// long.
fn put_mended(s: &[u8], out: &mut [u8]) -> usize
    requires { 2 * length s.now ≤ length out.old }
    ensures { Wrote out.old 0 (mended_of s.now) out.new result }
{
    let marked = spreadsheet::is_marked(s);
    mend_writes::put_text(s, spreadsheet::text_start(marked), out)
}

// The same as `hint`, by way of this slice.
fn hint_by(input: Input, s: &[u8], out: &mut [u8]) -> usize
    requires { 2 * length s.now ≤ length out.old }
    ensures { result ≡ hint_of input s.now }
{
    let before = read_to(input, s);
    let n = put_mended(s, out);
    let after = read_to(input, base::part_of(out, 0, n));
    reach::if_further(before, after, spreadsheet::change_count(s))
}

fn mended_room() -> [u8; MENDED_MOST] {
    [0u8; MENDED_MOST]
}

// How many changes mending makes in the file, where it helps; else 0.
pub fn hint(input: Input, s: &[u8]) -> usize
    ensures { result ≡ hint_of input s.now }
{
    if FILE_MOST < s.len() {
        return 0;
    }
    let mut out = mended_room();
    hint_by(input, s, &mut out)
}
