// Proofs only: what the proofs of the exported calls have in common, each of which copies its list of descriptors and goes on with the copy.
#![tactic(auto)]
