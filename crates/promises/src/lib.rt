// No code: the demands stand in specs/, what is proved of them in proofs/.
#![tactic(auto)]
