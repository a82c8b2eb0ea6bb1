// Theorems only, in specs/: by which numbers the calls answer, and which bytes they change.
#![tactic(auto)]
