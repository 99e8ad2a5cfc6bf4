// No code: the definitions about logs stand in specs/, what is proved of them in proofs/.
#![tactic(auto)]
