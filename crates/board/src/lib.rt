// No code: the statement that what the radio board's call decides is fed as before, in specs/, shown in proofs/.
#![tactic(auto)]
