// The transcript of a run as definitions (specs/): its bytes, and what the writer answers; and the theorems (proofs/)
// that the reader finds the run again. No code.
#![tactic(auto)]
