// The headline claims, a file each in proofs/, restated from where they are proved. No function.
#![tactic(auto)]
