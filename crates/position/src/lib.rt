// Demand 3: definitions in specs/, the proof in proofs/. No function.
#![tactic(auto)]
