// The fold of a word over a coset as definitions (specs/) and theorems about them (proofs/). No code.
#![tactic(auto)]
