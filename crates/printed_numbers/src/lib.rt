// Theorems only: each parameter of the formulas is the decimal that 001 prints, and each name of a value means its own.
#![tactic(auto)]
