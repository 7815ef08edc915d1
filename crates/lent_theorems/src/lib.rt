// Theorems only: what is promised of a farm's herds in a lent array (02, W12), in the words of the file rules.
#![tactic(auto)]
