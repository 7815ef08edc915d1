// The checksum that the benchmark prints: it takes little of each answer, so that it costs nearly nothing and still
// needs the answer.
use farm::Refusal;

// What the checksum is the remainder of.
const PRIME: u64 = 1000003;

// The checksum with one number more.
pub fn mixed(sum: u64, x: u64) -> u64 {
    (sum % PRIME * 31 + x % PRIME) % PRIME
}

pub fn refusal_sum(sum: u64, refusal: Refusal, record: usize) -> u64 {
    mixed(
        mixed(sum, refusal_numbers::number_of(refusal)),
        record as u64,
    )
}
