// Encoding and interpolation over a coset as definitions (specs/) and theorems about them (proofs/). No code.
#![tactic(auto)]
