// What is shown of the pass log: definitions in specs/, the proofs in proofs/. No function.
#![tactic(auto)]
