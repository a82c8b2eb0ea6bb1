// Theorems only, in specs/: what bytes put into an image make of it.
#![tactic(auto)]
