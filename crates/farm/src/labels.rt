// Labels: 1 to 16 bytes from 32 to 126, byte 34 excepted; two are one label where the bytes in use are the same.
ghost use Rattle.std.specs.Prelude.{◌≡◌};
ghost use Rattle.farm.specs.Labels.{byte_ok, label_ok, same_label, label_of, no_label};

use crate::{LABEL_MOST, Label};

const LOWEST: u8 = 32;

const HIGHEST: u8 = 126;

fn byte_ok(b: u8) -> bool
    ensures { result ≡ byte_ok b }
{
    LOWEST <= b && b <= HIGHEST && b != b'"'
}

pub fn label_ok(l: Label) -> bool
    ensures { result ≡ label_ok l }
{
    1 <= l.len && l.len <= LABEL_MOST && l.bytes[..l.len].iter().all(|b| byte_ok(*b))
}

// Are the bytes in use the same? From the last to the first: labels of one farm tend to be alike in front. Not the
// derived `==`: what lies behind them does not count.
pub fn same_label(a: Label, b: Label) -> bool
    ensures { result ≡ same_label a b }
{
    if a.len != b.len || LABEL_MOST < a.len {
        return false;
    }
    for i in (0..a.len).rev() {
        if a.bytes[i] != b.bytes[i] {
            return false;
        }
    }
    true
}

// The label that a text is; a longer text keeps its length, and is no good label.
pub fn label_of(s: &[u8]) -> Label
    ensures { result ≡ label_of s.now }
{
    let mut bytes = [0u8; LABEL_MOST];
    base::put(&mut bytes, 0, base::part_of(s, 0, LABEL_MOST));
    Label {
        bytes,
        len: s.len(),
    }
}

// A label that says nothing.
pub fn no_label() -> Label
    ensures { result ≡ no_label }
{
    Label {
        bytes: [0u8; LABEL_MOST],
        len: 0,
    }
}
