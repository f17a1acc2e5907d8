// Samples of the reference, which the checker computes from the definitions. No code.
#![tactic(auto)]
