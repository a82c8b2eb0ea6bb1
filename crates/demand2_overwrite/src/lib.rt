// Theorems only, in specs/: what an overwrite makes of a file system.
#![tactic(auto)]
