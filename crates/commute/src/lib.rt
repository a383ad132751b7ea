// The demands on runs over any interface of calls, each by its contract: the order of fixing letters and running makes no difference,
// and without letters each step is that of the rules for one pattern; no functions.
// specs/ has the statements: Interface, Lists (a run and its list of calls), Demand (demand 3), Alone (demand 2). proofs/ has the proofs.
#![tactic(auto)]
