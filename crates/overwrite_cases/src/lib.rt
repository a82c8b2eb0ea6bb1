// Worked cases only, in specs/: what T-05 says of some small volumes, by computation.
#![tactic(auto)]
