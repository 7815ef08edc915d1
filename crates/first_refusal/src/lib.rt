// Theorems only: which refusal is the first, said once of the refusals of a file, of a log and of a record; and which
// records a file has, as it is read.
#![tactic(auto)]
