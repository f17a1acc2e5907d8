// The transcript as definitions (specs/): its sections, the lists that it carries, the order of refusals over bytes;
// and the theorems (proofs/) that carry the judge over lists over to bytes. No code.
#![tactic(auto)]
