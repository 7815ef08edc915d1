// Reads an RFC 4180 file (01, The farm file) record by record: one pass over the bytes, and nothing is copied, since a
// field is handed back as that part of the caller's slice. What is promised stands in proofs/Promises.antt, over the
// grammar of grammar/specs/Grammar.antt. How a field ends is crate `field_ends`.
//
// Advice for those who change it: four places are kept, and every field is counted and read to its end, so that a fifth
// is seen, and a break in it too. Whoever needs a fifth place adds it to `Fields`, to `none` and `and`, and to the
// definitions of the same names.
#![tactic(auto)]

ghost use Rattle.std.specs.Prelude.{◌≡◌, ◌^◌, ◌<◌};
ghost use Rattle.base.specs.Pick.{if◌is◌then◌else◌};
ghost use Rattle.plain_fields.specs.Places.{held};
ghost use Rattle.csv_reader.specs.Places.{no_fields, and_field, step_of};

use plain_fields::{FieldEnd, Place};

// A record's fields: how many there are, and where the first four stand. A field that is not there has an empty place.
#[derive(Clone, Copy, Debug, PartialEq, Eq)]
pub struct Fields {
    pub count: usize,
    pub first: Place,
    pub second: Place,
    pub third: Place,
    pub fourth: Place,
}

// A reader's place in the file.
#[derive(Clone, Copy, Debug, PartialEq, Eq)]
pub struct ReaderPlace {
    pub at: usize,
}

// What reading at a place finds: a record, and the place past it; a broken record; or the end of the file. No Result:
// the end is no failure.
#[derive(Clone, Copy, Debug, PartialEq, Eq)]
pub enum Step {
    Record(Fields, ReaderPlace),
    Broken,
    End,
}

// The place p where n is k, else the old one.
fn placed(n: usize, k: usize, p: Place, old: Place) -> Place
    ensures { result ≡ (if n is k then p else old) }
{
    if n == k { p } else { old }
}

impl Fields {
    fn no_fields() -> Self
        ensures { result ≡ no_fields }
    {
        let p = Place { from: 0, to: 0 };
        Fields {
            count: 0,
            first: p,
            second: p,
            third: p,
            fourth: p,
        }
    }

    // One field more. No record has as many as 2^63, since no slice has as many bytes.
    fn with_field(self, p: Place) -> Self
        requires { self.count < 2 ^ 63 }
        ensures { result ≡ and_field self p }
    {
        let n = self.count;
        Fields {
            count: n + 1,
            first: placed(n, 0, p, self.first),
            second: placed(n, 1, p, self.second),
            third: placed(n, 2, p, self.third),
            fourth: placed(n, 3, p, self.fourth),
        }
    }
}

impl ReaderPlace {
    // Before the first record.
    pub fn front() -> Self
        ensures { result.at ≡ 0 }
    {
        ReaderPlace { at: 0 }
    }

    // The record that stands here.
    pub fn next(self, s: &[u8]) -> Step
        ensures { result ≡ step_of s.now self.at }
    {
        let mut at = self.at;
        if s.len() <= at {
            return Step::End;
        }
        let mut f = Fields::no_fields();
        loop {
            match field_ends::field_end(s, at) {
                FieldEnd::Comma(p, n) => {
                    f = f.with_field(p);
                    at = n;
                }
                FieldEnd::Crlf(p, n) => {
                    return Step::Record(f.with_field(p), ReaderPlace { at: n });
                }
                FieldEnd::File(p) => {
                    return Step::Record(f.with_field(p), ReaderPlace { at: s.len() });
                }
                FieldEnd::Broken => {
                    return Step::Broken;
                }
            }
        }
    }
}

// The content at a place: that part of the file.
pub fn field(s: &[u8], p: Place) -> &[u8]
    ensures { result.now ≡ held s.now p }
{
    base::part_of(s, p.from, p.to)
}
