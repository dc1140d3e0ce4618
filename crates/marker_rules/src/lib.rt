// The marker's rules and what follows from them: definitions and statements in specs/, theorems in proofs/.
#![tactic(auto)]
