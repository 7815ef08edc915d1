// The records of a file from the front, then 12.
ghost use Rattle.std.specs.Prelude.{◌≡◌, ◌≤◌};
ghost use Rattle.grammar.specs.Reading.{reading_of};
ghost use Rattle.farm.specs.Limits.{herds_most};
ghost use Rattle.reader.specs.Files.{refused, nothing_read, read_from};

use crate::FileAnswer;
use base::refusals::Refused;
use csv_reader::ReaderPlace;
use farm::{Farm, HERDS_MOST, Herd, Refusal, herds, prints};
use progress::Effect;

// The herd being read, and the number of its first record, 0 where there is none yet; and of the herds before it, the
// first record of the first that lacks an input, 0 where none does.
#[derive(Clone, Copy)]
struct Current {
    herd: Herd,
    first: usize,
    lacking: usize,
}

pub fn refused(record: usize, refusal: Refusal) -> FileAnswer
    ensures { result ≡ refused «record» refusal }
{
    FileAnswer {
        checked: Err(Refused(refusal, record)),
        farm: herds::no_farm(),
    }
}

// The records from the front, of a farm that may have `most` herds; then 12. The herds are kept here, and handed back
// once: to hand them on would copy them all. A label is compared with those of the herds before it only where one of
// them has its print.
pub fn read_records(s: &[u8], most: usize) -> FileAnswer
    requires { most ≤ herds_most }
    ensures { result ≡ read_from most 1 nothing_read (reading_of s.now) }
{
    let mut place = ReaderPlace::front();
    let mut herds = [herds::no_herd(); HERDS_MOST];
    let mut count = 0;
    let mut prints = [0u32; HERDS_MOST];
    let mut c = Current {
        herd: herds::no_herd(),
        first: 0,
        lacking: 0,
    };
    let mut number: usize = 1;
    loop {
        let read = places::read_at(s, place, c.herd);
        let after = number + 1;
        match read.effect {
            Effect::Ends => {
                let done = c.herd;
                let lacking = next_herd::lacking_with(c.lacking, done, c.first);
                if lacking != 0 {
                    return refused(lacking, Refusal::InputMissing);
                }
                herds[count] = done;
                count = next_herd::herds_so_far(count, c.first);
                return FileAnswer {
                    checked: Ok(()),
                    farm: Farm { herds, count },
                };
            }
            Effect::Wrong(refusal) => return refused(number, refusal),
            Effect::Adds => {
                c.herd = read.herd;
                place = read.next;
                number = after;
                continue;
            }
            Effect::Begins => {
                if herd_tests::has_print(&prints[..count], prints::print_of(read.herd.label)) {
                    if herd_tests::earlier_label(&herds[..count], read.herd.label) {
                        return refused(number, Refusal::EarlierLabel);
                    }
                }
                if next_herd::is_full(count, c.first, most) {
                    return refused(number, Refusal::NoRoomForHerd);
                }
                let done = c.herd;
                let lacking = next_herd::lacking_with(c.lacking, done, c.first);
                prints[count] = prints::print_of(done.label);
                herds[count] = done;
                count = next_herd::herds_so_far(count, c.first);
                c = Current {
                    herd: read.herd,
                    first: number,
                    lacking,
                };
                place = read.next;
                number = after;
                continue;
            }
        }
    }
}
