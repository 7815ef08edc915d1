// How long the file of an accepted farm is, herd by herd, and refusal 1 where it would be longer than any that is read
// (02, W5 and W12). It is told before a byte of it is put.
#![tactic(auto)]

ghost use Rattle.std.specs.Prelude.{◌≡◌, length};
ghost use Rattle.checks.specs.Checks.{check_herd, check_farm, herds_of};
ghost use Rattle.file_text.specs.Files.{herd_file, file_of};
ghost use Rattle.file_length.specs.Limit.{file_checked};
ghost use Rattle.farm.specs.Answers.{Accepted};

use base::refusals::Refused;
use farm::{Checked, Farm, Herd, Refusal};

// The longest file of a herd, of any kind: see crate `file_room`.
const HERD_ROOM: usize = 759;

fn herd_length(h: Herd) -> usize
    requires { check_herd h ≡ Accepted }
    ensures { result ≡ length (herd_file h) }
{
    let mut scratch = [0u8; HERD_ROOM];
    file_text::put_herd(&mut scratch, 0, h)
}

#[tactic(auto, using(crate::proofs::Steps::length_steps))]
fn length_of(farm: Farm) -> usize
    requires { check_farm farm ≡ Accepted }
    ensures { result ≡ length (file_of (herds_of farm)) }
{
    let mut sum = 0;
    for h in &farm.herds[..farm.count] {
        sum += herd_length(*h);
    }
    sum
}

// Whether a farm's file may be written.
#[tactic(auto, using(crate::proofs::Steps::limit_steps))]
pub fn check_file(farm: Farm) -> Checked
    requires { check_farm farm ≡ Accepted }
    ensures { result ≡ file_checked (file_of (herds_of farm)) }
{
    if limits::COOPERATIVE_BYTES < length_of(farm) {
        return Err(Refused(Refusal::FileTooLong, 0));
    }
    Ok(())
}
