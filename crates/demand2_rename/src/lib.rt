// Theorems only, in specs/: what rename makes of a file system.
#![tactic(auto)]
