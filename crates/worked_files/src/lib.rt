// Theorems only: files worked out from the definitions, 01's examples and one file at least for each refusal of
// reading.
#![tactic(auto)]
