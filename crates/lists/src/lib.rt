// Definitions on lists and numbers that several crates' definitions share, with their laws; no functions.
// specs/ has the definitions, proofs/ the laws, general in the element type.
// Knows nothing of cells or tables.
#![tactic(auto)]
