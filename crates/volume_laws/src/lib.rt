// Theorems only, in specs/: what the definitions of the crate volume give.
#![tactic(auto)]
