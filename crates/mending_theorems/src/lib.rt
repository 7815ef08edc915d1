// Theorems only: what is promised of crate `mend`, for every file.
#![tactic(auto)]
