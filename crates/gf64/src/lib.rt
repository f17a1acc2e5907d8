// The field of 2^64 elements as definitions (specs/) and theorems about them (proofs/). No code.
#![tactic(auto)]
