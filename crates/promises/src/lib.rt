// Theorems only: the three demands over what the public calls are to do (crate `contracts`), one file a demand; and
// what later requests promise over them, the room for a view, and 01's example.
#![tactic(auto)]
