// Engines that the promises of a step and a run shut out: proofs/Engines. There is no code here.
#![tactic(auto)]
