// What an agreement demands of a session stands in specs/, the theorems in proofs/. There is no code.
#![tactic(auto)]
