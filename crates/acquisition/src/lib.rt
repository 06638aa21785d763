// No code: how long a receiver waits for lock and for a confirmed time, stated in specs/ and shown in proofs/ about the definitions that `receiver` is proved against.
#![tactic(auto)]
