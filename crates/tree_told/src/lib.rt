// Theorems only, in specs/: what the lines of a tree tell, and its text.
#![tactic(auto)]
