// The additive transform: specs/ has its definitions, proofs/ its theorems.
#![tactic(auto)]
