// Theorems only, in specs/: the cases that document 01 marks (P).
#![tactic(auto)]
