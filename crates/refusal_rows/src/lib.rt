// No code: the rows of document 01's refusal table stand in specs/, the proofs that each number is given exactly when its row holds in proofs/.
#![tactic(auto)]
