// Theorems only, in specs/: what format, create, append and unlink make of a file system.
#![tactic(auto)]
