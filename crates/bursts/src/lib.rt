// Theorems only, in specs/: which damage to a record is surely caught.
#![tactic(auto)]
