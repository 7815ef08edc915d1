// Laws only, over the program logic's internals: how a proof by hand lends a slice of structs, as a parameter or from a
// local array, and has it back (02, W12). The borrow checker covers such functions now, so no proof cites these laws;
// they are for a walk of code that it does not cover.
#![tactic(auto)]
