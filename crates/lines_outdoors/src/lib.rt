// What the days of a gate's log come to, as its three lines.
#![tactic(auto)]

ghost use Rattle.std.specs.Prelude.{◌+◌, ◌≤◌, length};
ghost use Rattle.base.specs.Wrote.{Wrote};
ghost use Rattle.decimal.specs.Rooms.{digits_most};
ghost use Rattle.lines_outdoors.specs.Lines.{outdoors_lines};
ghost use Rattle.lines_outdoors.specs.Rooms.{PutNumber, lines_room};

use outdoors::Outdoors;

// Longer than the three lines.
pub const LINES_ROOM: usize = 128;

// A text, and a whole number behind it.
fn put_number(out: &mut [u8], at: usize, text: &[u8], n: u64) -> usize
    requires { at + length text.now + digits_most ≤ length out.old }
    ensures { PutNumber out.old at text.now n out.new result }
{
    let a = base::put(out, at, text);
    decimal::put_whole(out, a, n)
}

pub fn put_outdoors(out: &mut [u8], o: Outdoors) -> usize
    requires { lines_room ≤ length out.old }
    ensures { Wrote out.old 0 (outdoors_lines o) out.new result }
{
    let a = put_number(out, 0, b"grazing_days,", o.grazing_days as u64);
    let b = put_number(out, a, b"\r\nyard_days,", o.yard_days as u64);
    let c = put_number(out, b, b"\r\ngrazing_hours,", (o.grazing_hours / 10) as u64);
    let d = put_number(out, c, b".", (o.grazing_hours % 10) as u64);
    base::put(out, d, b"\r\n")
}
