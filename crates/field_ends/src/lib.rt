// How a field of an RFC 4180 file ends, and where it stands: one pass over its bytes, and nothing is copied, since a
// field is known by its place in the caller's slice.
//
// The machine. A reader is in one of five states, and the byte that it meets says what comes next:
//
//              comma        CR       LF            quote    other    end of the file
//   Start      next field   Return   broken        Quoted   Plain    record ends
//   Plain      next field   Return   broken        broken   Plain    record ends
//   Quoted     Quoted       Quoted   Quoted        Closed   Quoted   broken
//   Closed     next field   Return   broken        Quoted   broken   record ends
//   Return     broken       broken   record ends   broken   broken   broken
//
// Start is a field's first byte, Plain the rest of an unquoted field, Quoted the inside of quotes, Closed past a quote
// there, which closes the field or is the first of two, and Return past a CR outside quotes. The next field begins in
// Start, and so does the next record, if a byte is left. `field_end` is Start, `quoted_end` Quoted and Closed; in crate
// `plain_fields` `plain_end` is Plain, with its scan in `plain_stop`, and `line_end` Return.
//
// Advice for those who change it:
// - Begin with grammar/specs/Grammar.antt. The table stands twice more, with contents in grammar/specs/Reading.antt and
//   with positions in specs/Places.antt; the tests there come in the order of the code's, and a proof goes along both.
// - A place leaves the outer quotes off and keeps doubled quotes doubled. That is what makes a content a stretch of the
//   file: to undo the doubling would need room to write to.
// - A scan's invariant says what is still to be found, never what was passed.
#![tactic(auto)]

ghost use Rattle.std.specs.Prelude.{◌≡◌, ◌+◌, drop};
ghost use Rattle.field_ends.specs.Places.{quoted_from, field_from};

use plain_fields::{FieldEnd, Place};

// Quoted and Closed. A quoted field whose content starts at `at`, past the opening quote.
fn quoted_end(s: &[u8], at: usize) -> FieldEnd
    ensures { result ≡ quoted_from at at (drop at s.now) }
{
    // Not a `for`: a doubled quote is passed by a step of two.
    let mut i = at;
    while i < s.len() {
        if s[i] != b'"' {
            i += 1;
            continue;
        }
        let j = i + 1;
        if s.len() <= j {
            return FieldEnd::File(Place { from: at, to: i });
        }
        match s[j] {
            b',' => return FieldEnd::Comma(Place { from: at, to: i }, j + 1),
            b'\r' => return plain_fields::line_end(s, at, i, j + 1),
            b'"' => i = j + 1,
            _ => return FieldEnd::Broken,
        }
    }
    FieldEnd::Broken
}

// Start. The field that starts at `at`.
pub fn field_end(s: &[u8], at: usize) -> FieldEnd
    ensures { result ≡ field_from at (drop at s.now) }
{
    if at < s.len() && s[at] == b'"' {
        quoted_end(s, at + 1)
    } else {
        plain_fields::plain_end(s, at)
    }
}
