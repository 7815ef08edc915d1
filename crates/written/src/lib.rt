// What a writing call says: the length of what it wrote, or a refusal; and what was put together elsewhere handed over,
// or refusal 13 where the lent buffer is too short for it (01, Refusal numbers).
#![tactic(auto)]

ghost use Rattle.base.specs.Part.{part};
ghost use Rattle.written.specs.Answer.{Answered};

use base::refusals::Refused;
use farm::{Answer, Refusal};

// The length of what was written, or a refusal.
pub type Written = Answer<usize>;

// The first n bytes of `put` as the listing: into the buffer, or refusal 13 where it is too short.
pub fn hand_over(out: &mut [u8], put: &[u8], n: usize) -> Written
    ensures { Answered (part put.now 0 n) out.old out.new result }
{
    let listing = base::part_of(put, 0, n);
    if out.len() < listing.len() {
        Err(Refused(Refusal::BufferTooShort, 0))
    } else {
        Ok(base::put(out, 0, listing))
    }
}
