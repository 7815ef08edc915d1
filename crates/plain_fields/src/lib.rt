// How an unquoted field of an RFC 4180 file ends, and where it stands: the states Plain and Return of the machine that
// crate `field_ends` lays out.
#![tactic(auto)]

ghost use Rattle.std.specs.Prelude.{◌≡◌, ◌+◌, drop};
ghost use Rattle.plain_fields.specs.Places.{place, line_from, ends_plain, plain_stop, plain_from};

// Where a field's content stands in the file: from its first byte to before `to`.
#[derive(Clone, Copy, Debug, PartialEq, Eq)]
pub struct Place {
    pub from: usize,
    pub to: usize,
}

// How a field ends: where it stands, and where reading goes on.
#[derive(Clone, Copy, Debug, PartialEq, Eq)]
pub enum FieldEnd {
    Comma(Place, usize),
    Crlf(Place, usize),
    File(Place),
    Broken,
}

// Return. A CR was read before `at`: an LF must stand there.
pub fn line_end(s: &[u8], from: usize, to: usize, at: usize) -> FieldEnd
    ensures { result ≡ line_from (place from to) (at + 1) (drop at s.now) }
{
    if at < s.len() && s[at] == b'\n' {
        FieldEnd::Crlf(Place { from, to }, at + 1)
    } else {
        FieldEnd::Broken
    }
}

// Does b end an unquoted field, or break it?
fn ends_plain(b: u8) -> bool
    ensures { result ≡ ends_plain b }
{
    matches!(b, b',' | b'\r' | b'\n' | b'"')
}

// Where the text of an unquoted field ends, from `at` on. No byte above a comma ends it, so one test is enough for most
// bytes.
fn plain_stop(s: &[u8], at: usize) -> usize
    ensures { result ≡ plain_stop at (drop at s.now) }
{
    for i in at..s.len() {
        if s[i] <= b',' && ends_plain(s[i]) {
            return i;
        }
    }
    at.max(s.len())
}

// Plain. An unquoted field that starts at `at`: what stands where its text ends says how it ends.
pub fn plain_end(s: &[u8], at: usize) -> FieldEnd
    ensures { result ≡ plain_from at at (drop at s.now) }
{
    let i = plain_stop(s, at);
    if s.len() <= i {
        return FieldEnd::File(Place { from: at, to: i });
    }
    match s[i] {
        b',' => FieldEnd::Comma(Place { from: at, to: i }, i + 1),
        b'\r' => line_end(s, at, i, i + 1),
        _ => FieldEnd::Broken,
    }
}
