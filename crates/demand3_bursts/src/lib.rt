// Theorems only, in specs/: what demand 3 is left to assume of damage that is surely caught.
#![tactic(auto)]
