// What a double is worth, and what a rounding costs: definitions in specs/, laws in proofs/. No function.
#![tactic(auto)]
