// What follows for whoever uses the marker, of the code's own calls and answers: statements in specs/, theorems in proofs/.
#![tactic(auto)]
