// Definitions only, in specs/: the on-flash format of NFFS version 0 and how an area is read.
#![tactic(auto)]
