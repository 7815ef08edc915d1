// A farm's file opened for steps (02, W11): the farm, and its totals to be kept beside it.
ghost use Rattle.step_answer.specs.Files.{Opens};

use farm::{Checked, Farm};
use limits::Source;
use outputs::Totals;

// Whether the file is accepted, its farm and the totals; of a refused file no herds.
#[derive(Clone, Copy)]
pub struct Opened {
    pub checked: Checked,
    pub farm: Farm,
    pub totals: Totals,
}

pub fn open(source: Source, s: &[u8]) -> Opened
    ensures { Opens source s.now result }
{
    let read = farm_file::read(source, s);
    Opened {
        checked: read.checked,
        farm: read.farm,
        totals: answers::farm_answer(read.farm).totals,
    }
}
