// Whose line it is: a label as a field, a comma, and the path of a kind.
ghost use Rattle.std.specs.Prelude.{◌≡◌, ◌≤◌, length};
ghost use Rattle.base.specs.Text.{bytes};
ghost use Rattle.base.specs.Wrote.{Wrote};
ghost use Rattle.farm.specs.Labels.{text};
ghost use Rattle.line_parts.specs.Bounds.{longest_owner};
ghost use Rattle.line_parts.specs.Paths.{path_of};
ghost use Rattle.line_parts.specs.Owners.{owner_of};

use crate::labels;
use farm::Label;
use inputs::Kind;

// As long as a path can be, and what a line begins with: the label's field, a comma and the path.
const PATH_MOST: usize = 28;

pub const OWNER_MOST: usize = labels::FIELD_MOST + 1 + PATH_MOST;

// The path of a kind.
fn path_of(kind: Kind) -> &'static [u8]
    ensures { result.now ≡ bytes (path_of kind) }
{
    match kind {
        Kind::Roughage => b"Livestock::RoughageConsuming",
        Kind::Cattle => b"Livestock::OtherCattle",
        Kind::Pigs => b"Livestock::FatteningPigs",
        Kind::DairyCow => b"Livestock::DairyCow",
    }
}

// From the front of the buffer on.
pub fn put_owner(out: &mut [u8], label: Label, kind: Kind) -> usize
    requires { longest_owner ≤ length out.old }
    ensures { Wrote out.old 0 (owner_of (text label) (bytes (path_of kind))) out.new result
        × (result ≤ longest_owner) }
{
    let a = labels::put_label(out, 0, label);
    let b = base::put_byte(out, a, b',');
    base::put(out, b, path_of(kind))
}
