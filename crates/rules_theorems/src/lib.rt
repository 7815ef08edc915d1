// Theorems only: the file rules and the refusals of 01 as statements about a file's records, and that what the reader
// is defined to answer is just what they ask.
#![tactic(auto)]
