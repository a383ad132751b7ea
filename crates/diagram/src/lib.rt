// Functions of the letters: the table, its soundness and its operations, as definitions with their laws (document 01,
// "Functions of the letters"); no functions of the language.
// specs/ has what a reader must believe: Pattern, Table, Sound, Store, Operation, Held, Call; proofs/ the laws that others cite.
#![tactic(auto)]

// The operations on two functions that act number by number. Flip turns a bit where the second number is a given one.
#[derive(Clone, Copy)]
pub enum Operation {
    Smaller,
    Sum,
    Flip(u32),
}
