// A whole number of up to 64 bits, read from its text: 01's form, digits with no sign, no point and no leading zero but
// a single one.
#![tactic(auto)]

ghost use Rattle.std.specs.Prelude.{◌≡◌};
ghost use Rattle.digits.specs.Digits.{with_digit, up_to};
ghost use Rattle.numbers.specs.Reading.{whole_from};
ghost use Rattle.wide_numbers.specs.Wide.{wide_most, Reads, widened};

// The largest value that a digit can stand behind.
const TENTH_MOST: u64 = u64::MAX / 10;

// v with one digit more behind it, where b is a digit and the number stays within 64 bits.
#[tactic(auto, using(crate::proofs::Steps::digit_steps))]
fn with_digit(v: u64, b: u8) -> Option<u64>
    ensures { result ≡ widened (up_to wide_most (with_digit v b)) }
{
    if !b.is_ascii_digit() {
        return None;
    }
    if TENTH_MOST < v {
        return None;
    }
    let x = v * 10;
    let d = u64::from(b - b'0');
    if u64::MAX - x < d {
        return None;
    }
    Some(x + d)
}

// The number that digits spell.
fn spelled(s: &[u8]) -> Option<u64>
    ensures { result ≡ widened (up_to wide_most (whole_from 0 0 s.now)) }
{
    let mut x = 0;
    for b in s {
        let Some(y) = with_digit(x, *b) else {
            return None;
        };
        x = y;
    }
    Some(x)
}

#[tactic(auto, using(crate::proofs::Steps::number_steps))]
pub fn read_wide(s: &[u8]) -> Option<u64>
    ensures { Reads s.now result }
{
    if s.len() == 0 {
        return None;
    }
    if s[0] == b'0' {
        return if s.len() == 1 { Some(0) } else { None };
    }
    spelled(s)
}
