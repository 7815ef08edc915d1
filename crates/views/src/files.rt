// A file's bytes in, what a view lists of its farm out: read once, and listed straight from what was read.
ghost use Rattle.std.specs.Prelude.{◌≤◌, length};
ghost use Rattle.views.specs.Rooms.{output_room};
ghost use Rattle.views.specs.Program.{PutFile};

use crate::{View, farms};
use limits::Source;
use written::Written;

// The view of the file's farm; or the refusal, and nothing is written.
pub fn put_file(source: Source, s: &[u8], out: &mut [u8], view: View) -> Written
    requires { output_room source ≤ length out.old }
    ensures { PutFile source view s.now out.old out.new result }
{
    let answer = farm_file::read(source, s);
    answer.checked?;
    if farms::has_limit(view) {
        farms::put_limited(out, answer.farm, view)
    } else {
        Ok(farms::put_view(out, answer.farm, view))
    }
}
