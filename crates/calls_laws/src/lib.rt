// Theorems only, in specs/: what checks 1 to 7 give, and that the records of a volume are sound.
#![tactic(auto)]
