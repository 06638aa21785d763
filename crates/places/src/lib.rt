// No code: document 01's starred places to look, stated in specs/ and shown in proofs/ about the definitions.
#![tactic(auto)]
