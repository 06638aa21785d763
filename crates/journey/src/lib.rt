// No code: one statement over the crates, from a date to bits to a confirmed time, in specs/ and shown in proofs/.
#![tactic(auto)]
