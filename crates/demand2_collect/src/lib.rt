// Theorems only, in specs/: what collect makes of a file system.
#![tactic(auto)]
