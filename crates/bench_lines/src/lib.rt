// No code: the bench table of document 01 under one statement, and the wrong programs refuted (specs/, proofs/).
#![tactic(auto)]
