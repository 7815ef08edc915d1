// Theorems only: the grammar of RFC 4180, what a file of it says, byte by byte, and that these are one.
#![tactic(auto)]
