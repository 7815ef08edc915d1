// Digits read within a largest value: one digit more, zeros behind a number, the digits behind the point.
#![tactic(auto)]

ghost use Rattle.std.specs.Prelude.{◌≡◌, ◌≤◌, drop};
ghost use Rattle.digits.specs.Digits.{up_to, with_digit, scaled_by, fraction_from, point_from};

// v with one digit more behind it, where b is a digit and the number stays in range.
#[tactic(auto, using(crate::proofs::Steps::digit_steps))]
pub fn with_digit(v: u32, b: u8, most: u32) -> Option<u32>
    ensures { result ≡ up_to most (with_digit v b) }
{
    if !b.is_ascii_digit() {
        return None;
    }
    let x = u64::from(v) * 10 + u64::from(b - b'0');
    if u64::from(most) < x {
        return None;
    }
    Some(x as u32)
}

// v with k zeros behind it.
#[tactic(auto, using(crate::proofs::Steps::scaled_steps))]
pub fn scaled(v: u32, k: usize, most: u32) -> Option<u32>
    requires { v ≤ most }
    ensures { result ≡ up_to most (scaled_by v k) }
{
    let mut x = v;
    for _ in 0..k {
        let Some(y) = with_digit(x, b'0', most) else {
            return None;
        };
        x = y;
    }
    Some(x)
}

// The digits behind the point, from `at` on: v was read before them, and at most `left` may follow.
#[tactic(auto, using(crate::proofs::Steps::fraction_steps))]
fn fraction(s: &[u8], at: usize, left: usize, most: u32, v: u32) -> Option<u32>
    requires { v ≤ most }
    ensures { result ≡ up_to most (fraction_from left v (drop at s.now)) }
{
    let mut k = left;
    let mut x = v;
    for i in at..s.len() {
        if k == 0 {
            return None;
        }
        let Some(y) = with_digit(x, s[i], most) else {
            return None;
        };
        x = y;
        k -= 1;
    }
    scaled(x, k, most)
}

// Past the point: at least one digit follows.
#[tactic(auto, using(crate::proofs::Steps::point_steps))]
pub fn point(s: &[u8], at: usize, decimals: usize, most: u32, v: u32) -> Option<u32>
    requires { v ≤ most }
    ensures { result ≡ up_to most (point_from decimals v (drop at s.now)) }
{
    if s.len() <= at {
        return None;
    }
    fraction(s, at, decimals, most, v)
}
