// What the public calls are to do: the definitions that their contracts name, and theorems on them. No code.
#![tactic(auto)]
