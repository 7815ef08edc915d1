// What a herd's figures are, kind by kind, and the laws of them; crates `grazer_sections`, `pig_sections` and
// `herd_figures` compute them.
#![tactic(auto)]
