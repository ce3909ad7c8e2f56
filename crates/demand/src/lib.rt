// Demand 3: the machine beside a plain one that has no frames. No code: definitions and statements (specs) and their proofs (proofs).
#![tactic(auto)]
