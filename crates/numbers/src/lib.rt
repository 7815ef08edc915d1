// A number read from its text, as the fields of a farm file and of a log hold it.
#![tactic(auto)]

ghost use Rattle.std.specs.Prelude.{◌≡◌, ◌≤◌, drop};
ghost use Rattle.digits.specs.Digits.{up_to};
ghost use Rattle.numbers.specs.Reading.{whole_from, number_of};

// The digits of the whole part, from `at` on: v was read before them.
fn whole(s: &[u8], at: usize, decimals: usize, most: u32, v: u32) -> Option<u32>
    requires { v ≤ most }
    ensures { result ≡ up_to most (whole_from decimals v (drop at s.now)) }
{
    let mut x = v;
    for i in at..s.len() {
        let b = s[i];
        if b == b'.' {
            return digits::point(s, i + 1, decimals, most, x);
        }
        let Some(y) = digits::with_digit(x, b, most) else {
            return None;
        };
        x = y;
    }
    digits::scaled(x, decimals, most)
}

// The number that s holds, with at most `decimals` digits behind the point and a value of at most `most`.
pub fn read_number(s: &[u8], decimals: usize, most: u32) -> Option<u32>
    ensures { result ≡ number_of s.now decimals most }
{
    if s.len() == 0 {
        return None;
    }
    if s[0] == b'0' {
        if s.len() == 1 {
            return Some(0);
        }
        if s[1] == b'.' {
            return digits::point(s, 2, decimals, most, 0);
        }
        return None;
    }
    let Some(x) = digits::with_digit(0, s[0], most) else {
        return None;
    };
    whole(s, 1, decimals, most, x)
}
