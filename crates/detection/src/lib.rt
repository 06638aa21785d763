// No code: what the block refuses, stated in specs/ and shown in proofs/ about the definitions that `block` is proved against.
#![tactic(auto)]
