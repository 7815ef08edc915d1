// Theorems only: what is promised of the steps that change a farm's herds and its stored totals (02, W11).
#![tactic(auto)]
