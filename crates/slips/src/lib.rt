// Slips that the promises shut out, each by a computed counterexample: proofs. There is no code here.
#![tactic(auto)]
