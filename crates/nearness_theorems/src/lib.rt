// Theorems only: how near the figures of a herd and the totals of a farm are to their exact values (demand 3).
#![tactic(auto)]
