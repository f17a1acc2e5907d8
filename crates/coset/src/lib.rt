// Cosets as definitions (specs/) and theorems about them (proofs/): points, span, independence of a basis,
// the subspace polynomial and the next coset. No code.
#![tactic(auto)]
