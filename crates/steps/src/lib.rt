// What a step, a call and a run are stands in specs/, what they reach and the argument in proofs/. There is no code.
#![tactic(auto)]
