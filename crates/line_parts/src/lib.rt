// What the lines of every view are put together from: a label as a field, and whose line it is, a label and the path of
// a kind. Knows nothing of what a line says.
#![tactic(auto)]

pub mod labels; // a label as a field
pub mod owners; // whose line it is
