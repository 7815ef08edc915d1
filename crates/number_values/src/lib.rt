// What a number's text says as a value: one in range, or a whole number that may be below zero (02, W3).
#![tactic(auto)]

ghost use Rattle.std.specs.Prelude.{◌≡◌};
ghost use Rattle.numbers.specs.Reading.{number_of};
ghost use Rattle.number_values.specs.Numbers.{number_read, has_minus, below_read, above_read, signed_read};
ghost use Rattle.number_values.specs.Faults.{refusal_of};

use farm::{Given, Refusal};

// Why a text is no value: it is a `standard` that 6 forbids, or nothing that its input may be, which is 7.
#[derive(Clone, Copy, Debug, PartialEq, Eq)]
pub enum ValueFault {
    Forbidden,
    Unfit,
}

impl From<ValueFault> for Refusal {
    ghost from_gives = { λ fault refusal. refusal ≡ refusal_of fault };

    fn from(fault: ValueFault) -> Self {
        match fault {
            ValueFault::Forbidden => Refusal::StandardForbidden,
            ValueFault::Unfit => Refusal::BadValue,
        }
    }
}

pub fn number_read(s: &[u8], decimals: usize, most: u32) -> Result<Given, ValueFault>
    ensures { result ≡ number_read (number_of s.now decimals most) }
{
    let Some(v) = numbers::read_number(s, decimals, most) else {
        return Err(ValueFault::Unfit);
    };
    Ok(Given::Value(v))
}

// Is a `-` in front?
fn has_minus(s: &[u8]) -> bool
    ensures { result ≡ has_minus s.now }
{
    matches!(s, [b'-', ..])
}

// A whole number behind a `-`: any but 0.
fn below_read(s: &[u8], most: u16) -> Result<Given, ValueFault>
    ensures { result ≡ below_read (number_of s.now 0 most) }
{
    let Some(v) = numbers::read_number(s, 0, most as u32) else {
        return Err(ValueFault::Unfit);
    };
    if v == 0 {
        return Err(ValueFault::Unfit);
    }
    Ok(Given::Signed(-(v as i32)))
}

fn above_read(s: &[u8], most: u16) -> Result<Given, ValueFault>
    ensures { result ≡ above_read (number_of s.now 0 most) }
{
    let Some(v) = numbers::read_number(s, 0, most as u32) else {
        return Err(ValueFault::Unfit);
    };
    Ok(Given::Signed(v as i32))
}

// A whole number that may be below zero (02, W3).
pub fn signed_read(s: &[u8], most: u16) -> Result<Given, ValueFault>
    ensures { result ≡ signed_read s.now most }
{
    if has_minus(s) {
        below_read(base::part_of(s, 1, s.len()), most)
    } else {
        above_read(s, most)
    }
}
