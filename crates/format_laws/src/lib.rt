// Theorems only, in specs/: what follows from the format and from how an area is read.
#![tactic(auto)]
