// 2.51 (02, W1): the amounts of a pig house: its ammonia, what an air scrubber keeps back, and what leaves it
// as slurry and as solid manure.
#![tactic(auto)]

pub mod scrubber; // what an air scrubber keeps back
pub mod house; // what goes into the house, is emitted there, and leaves it
