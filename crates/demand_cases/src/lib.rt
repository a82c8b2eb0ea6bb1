// Worked cases only, in specs/: what the demands say of some small volumes, by computation.
#![tactic(auto)]
