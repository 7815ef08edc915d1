// Theorems only: how long the file of a herd, and of a farm, can be (02, W5).
#![tactic(auto)]
