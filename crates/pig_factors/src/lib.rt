// 2.51 to 2.60 (02, W1): the emission factor of a pig house, as its names in a file make it. Factors are in billionths.
#![tactic(auto)]

pub mod parameters; // what the names of a pig house stand for
pub mod factors; // the emission factor, and what it is made of
