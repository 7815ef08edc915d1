// What the program prints for a file: what the command's view lists of its farm, or the refusal's line. No call of the
// library does so: there a refusal leaves the lent buffer as it was.
ghost use Rattle.std.specs.Prelude.{◌≤◌, length};
ghost use Rattle.views.specs.Rooms.{output_room};
ghost use Rattle.views.specs.Program.{PutOutput};

use crate::{Output, View, files};
use base::refusals::Refused;
use limits::Source;

pub fn put_output(source: Source, s: &[u8], out: &mut [u8], view: View) -> Output
    requires { output_room source ≤ length out.old }
    ensures { PutOutput source view s.now out.old out.new result }
{
    match files::put_file(source, s, out, view) {
        Ok(n) => Output {
            ended: Ok(n),
            length: n,
        },
        Err(refused) => Output {
            ended: Err(refused),
            length: file_refusal_line::put_line(out, refused.0, refused.1),
        },
    }
}
