// The marking sheet, by its bytes: definitions (specs/) and theorems about them (proofs/).
#![tactic(auto)]
