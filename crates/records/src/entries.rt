// What a record says by itself: refusals 3 to 7, in their order, or a value for an input.
ghost use Rattle.std.specs.Prelude.{◌≡◌};
ghost use Rattle.csv_reader.specs.Places.{parts_at};
ghost use Rattle.records.specs.Entries.{input_read, entry_of};

use crate::Entry;
use csv_reader::Fields;
use farm::{Given, Refusal, labels};
use inputs::Kind;

const FIELDS: usize = 4;

// What a record of four fields and a good label says: refusals 5 to 7.
fn input_read(s: &[u8], f: Fields) -> Result<(Kind, usize, Given), Refusal>
    ensures { result ≡ input_read (parts_at s.now f) }
{
    let path = csv_reader::field(s, f.second);
    let name = csv_reader::field(s, f.third);
    let Some((kind, slot, form)) = finding::find_input(path, name) else {
        return Err(Refusal::NotInTheList);
    };
    let given = values::value_of(form, csv_reader::field(s, f.fourth))?;
    Ok((kind, slot, given))
}

// A record's label and what it says.
pub fn entry_of(s: &[u8], f: Fields) -> Entry
    ensures { result ≡ entry_of (parts_at s.now f) }
{
    let label = labels::label_of(csv_reader::field(s, f.first));
    let read = if f.count != FIELDS {
        Err(Refusal::NotFourFields)
    } else if !labels::label_ok(label) {
        Err(Refusal::BadLabel)
    } else {
        input_read(s, f)
    };
    Entry { label, read }
}
