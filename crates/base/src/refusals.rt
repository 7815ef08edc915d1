// A refusal in an answer: what is refused, and which record has it.

// The kind of the refusal, and the number of the record that has it, or 0 where it is no record's.
#[derive(Clone, Copy, Debug, PartialEq, Eq)]
pub struct Refused<R>(pub R, pub usize);
