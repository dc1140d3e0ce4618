// What a host may rely on: demand 3 and the accounting, of the code. Statements in specs/, theorems in proofs/.
#![tactic(auto)]
