// What stands around a run: a file that is read by its name, what is said on standard error, and how the run ended. The
// pages of help, too.
#![tactic(auto)]

mod descriptors; // the digit's descriptor
pub mod messages; // what is said on standard error, the pages of help, and the digit
pub mod named; // a file that is read by its name

use std::env::Env;
use std::rt::Files;
use streams::telling::Tell;

// What a run reads, asks and writes: the command line's words, files, standard input, output and error.
pub trait Surroundings: Env + Files + Input + Print + Tell {}

impl Surroundings for HostRuntime {}

// How a run ended: the answer was printed, the file was refused, or neither.
#[derive(Clone, Copy, Debug, PartialEq, Eq)]
pub enum Ended {
    Printed,
    Refused,
    Failed,
}
