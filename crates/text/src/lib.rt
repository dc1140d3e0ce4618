// Numbers and lines as text: definitions in specs/, laws in proofs/.
#![tactic(auto)]
