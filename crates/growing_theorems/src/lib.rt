// Theorems only: one more animal, never less ammonia (02, W14).
#![tactic(auto)]
