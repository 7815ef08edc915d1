// What a herd's record says as the complete inputs of its kind, and the laws of it; crate `herd_inputs` reads it so.
#![tactic(auto)]
