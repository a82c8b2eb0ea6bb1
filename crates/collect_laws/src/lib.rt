// Theorems only, in specs/: what the code and the demands need of the copies of a collection.
#![tactic(auto)]
