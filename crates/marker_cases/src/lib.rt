// The marker's cases on both sides of each line, computed from the rules: a table in specs/, the computation in proofs/.
#![tactic(auto)]
