// Theorems only, in specs/: the register of the check is linear, so a table can work it out.
#![tactic(auto)]
