// No code: the 29 invariants stand in specs/, what is proved of them and of every run in proofs/.
#![tactic(auto)]
