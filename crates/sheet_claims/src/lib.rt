// What is claimed of the sheet is in specs/, and its proofs in proofs/.
#![tactic(auto)]
