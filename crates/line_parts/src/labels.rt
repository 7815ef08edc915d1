// A label as a field: in quotes where it has a comma.
ghost use Rattle.std.specs.Prelude.{◌+◌, ◌≤◌, length};
ghost use Rattle.base.specs.Wrote.{Wrote};
ghost use Rattle.farm.specs.Labels.{text};
ghost use Rattle.line_parts.specs.Bounds.{longest_field};
ghost use Rattle.line_parts.specs.Fields.{label_field};

use farm::Label;

// As long as the field can be: the label, and two quotes.
pub const FIELD_MOST: usize = farm::LABEL_MOST + 2;

// The label's field from `at` on; the end of it.
pub fn put_label(out: &mut [u8], at: usize, label: Label) -> usize
    requires { at + longest_field ≤ length out.old }
    ensures { Wrote out.old at (label_field (text label)) out.new result
        × (result ≤ at + longest_field) }
{
    let bytes = base::part_of(&label.bytes, 0, label.len);
    if bytes.contains(&b',') {
        let a = base::put_byte(out, at, b'"');
        let b = base::put(out, a, bytes);
        base::put_byte(out, b, b'"')
    } else {
        base::put(out, at, bytes)
    }
}
