// The protocol over lists as definitions (specs/) and theorems about them (proofs/), demand 3 among them.
// The code here is what a judging answers.
#![tactic(auto)]

use refusal::Cause;

// What a judging answers: accepted, or the cause of the refusal; and the entries read.
#[derive(Clone, Copy)]
pub struct Verdict {
    pub answer: Result<(), Cause>,
    pub reads: u64,
}
