// Theorems only: the file that is written of a farm keeps the file rules and says the farm (02, W5).
#![tactic(auto)]
