// The switch-level rules (document 01, "One step, for one pattern" to "Numbers given to the editor") as definitions with their laws; no functions.
// specs/ has what a reader must believe: State, Arrive, Label, Kept, Reach, Sum, Delay, Step, Run, Call, and the worked Cases; rules 2, 4 and 6 are as document 02's wishes
// 2, 3 and 6 amend them, and Sensitivity is the claim of its wish 11. Matrix and Group are what our code goes by. proofs/ has the worked cases and the laws that others cite.
#![tactic(auto)]
