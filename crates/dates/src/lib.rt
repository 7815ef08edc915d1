// A date read from its text.
#![tactic(auto)]

ghost use Rattle.std.specs.Prelude.{◌≡◌};
ghost use Rattle.dates.specs.Reading.{pair_of, date_of};

use calendar::Date;

// What two bytes spell as digits.
#[tactic(auto, unfolding(crate::specs::Reading::pair_of))]
fn pair(a: u8, b: u8) -> Option<u8>
    ensures { result ≡ pair_of a b }
{
    if a.is_ascii_digit() && b.is_ascii_digit() {
        Some((a - b'0') * 10 + (b - b'0'))
    } else {
        None
    }
}

// The date that a text says as YYYY-MM-DD, whether there is such a day or not.
#[tactic(auto, unfolding(crate::specs::Reading::date_of))]
pub fn read_date(s: &[u8]) -> Option<Date>
    ensures { result ≡ date_of s.now }
{
    let [y0, y1, y2, y3, b'-', m0, m1, b'-', d0, d1] = s else {
        return None;
    };
    let hundreds = pair(*y0, *y1)?;
    let years = pair(*y2, *y3)?;
    let month = pair(*m0, *m1)?;
    let day = pair(*d0, *d1)?;
    Some(Date {
        year: hundreds as u32 * 100 + years as u32,
        month: month as u32,
        day: day as u32,
    })
}
