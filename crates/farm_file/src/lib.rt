// A farm file, of any bytes, becomes the farm that its records say, or exactly one refusal with its record number: the
// first that applies in 01's order, within the limits of where the file comes from. 1 comes before all; the records are
// crate `reader`.
#![tactic(auto)]

ghost use Rattle.std.specs.Prelude.{◌≡◌};
ghost use Rattle.limits.specs.Limits.{limits_of};
ghost use Rattle.reader.specs.Files.{herds_within, read_of};

use farm::{HERDS_MOST, Refusal};
use limits::{Limits, Source};
use reader::{FileAnswer, files};

// How many herds a farm may have: as the limits say, and no more than its record has room for.
fn herds_within(limits: Limits) -> usize
    ensures { result ≡ herds_within limits }
{
    limits.herds.min(HERDS_MOST)
}

// The farm that a file says, or the first refusal that applies, within any limits.
pub fn read_within(limits: Limits, s: &[u8]) -> FileAnswer
    ensures { result ≡ read_of limits s.now }
{
    if limits.bytes < s.len() {
        return files::refused(0, Refusal::FileTooLong);
    }
    files::read_records(s, herds_within(limits))
}

// Within those of where the file comes from.
pub fn read(source: Source, s: &[u8]) -> FileAnswer
    ensures { result ≡ read_of (limits_of source) s.now }
{
    read_within(limits::limits_of(source), s)
}
