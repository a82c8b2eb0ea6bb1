// Worked cases only, in specs/: what T-07 says of some small volumes, by computation.
#![tactic(auto)]
