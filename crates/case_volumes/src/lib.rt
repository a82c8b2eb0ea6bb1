// Definitions of small volumes only, in specs/: what the worked cases speak of.
#![tactic(auto)]
