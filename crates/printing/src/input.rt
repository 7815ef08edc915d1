// The farm file on standard input.
ghost use Rattle.std.specs.Prelude.{◌+◌, ◌≡◌, length};
ghost use Rattle.limits.specs.Limits.{input_bytes};
ghost use Rattle.streams.specs.Within.{Within};

use streams::Outcome;

// One byte more than it may have, so that a longer one is seen.
pub const INPUT_MOST: usize = limits::INPUT_BYTES + 1;

// The whole file; or, of a longer one, so much that it is refused as too long.
pub fn read_file(rt: &impl Input, file: &mut [u8]) -> Outcome
    requires { length file.old ≡ input_bytes + 1 }
    ensures { Within (length file.new) result }
{
    streams::read_all(rt, file)
}
