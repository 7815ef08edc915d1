// Theorems only: which logs of a pasture gate are accepted, what they come to, and which refusal is the first.
#![tactic(auto)]
