// The lines that the program `judge` prints, by their bytes: definitions (specs/) and theorems about them (proofs/).
#![tactic(auto)]
