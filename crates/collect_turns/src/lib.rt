// Theorems only, in specs/: which areas collections take, one after the other.
#![tactic(auto)]
