// No code: the statement that ties the block and the state as numbers to the fifty bytes, in specs/, shown in proofs/.
#![tactic(auto)]
