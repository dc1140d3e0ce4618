// Lists made piece by piece, as loops make them: definitions in specs/, laws in proofs/.
#![tactic(auto)]
