// Definitions only, in specs/: what the records of a volume mean.
#![tactic(auto)]
