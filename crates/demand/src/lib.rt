// Demand 3 and demand 2 over the calls that there are, from C and by value; no functions.
// specs/ has the two interfaces, each call by the proposition that its contract states (FromC, ByValue), and the demands (Demand).
// proofs/ has the proof, from the one of crate commute for every interface whose contracts give the answers of the definitions.
#![tactic(auto)]
