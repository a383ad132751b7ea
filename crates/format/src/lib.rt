// The cell file and the cell as a value: definitions and their laws (document 01, "The cell file"; document 02, wish 1); no functions.
// specs/ has what a reader must believe: Source, Circuit, Legal, File (the reader's answer for every list of bytes), Fixing, Saved (a cell as a file).
// proofs/ has the laws that later layers cite.
#![tactic(auto)]

use units::{Femtofarads, Ohms, Picoseconds};

// The header's counts N, M, E, the letters K and the horizon H.
#[derive(Clone, Copy)]
pub struct Header {
    pub nodes: u32,
    pub transistors: u32,
    pub entries: u32,
    pub letters: u32,
    pub horizon: Picoseconds,
}

// A node record: role 0 inner, 1 input; its start source byte.
#[derive(Clone, Copy)]
pub struct Node {
    pub role: u8,
    pub start: u8,
    pub capacitance: Femtofarads,
}

// A transistor: polarity 0 n, 1 p (document 01's type); gate and the two channel ends are node numbers.
#[derive(Clone, Copy)]
pub struct Transistor {
    pub polarity: u8,
    pub gate: u8,
    pub first: u8,
    pub second: u8,
    pub resistance: Ohms,
}

// A schedule entry: at its time the input takes the source.
#[derive(Clone, Copy)]
pub struct Entry {
    pub input: u8,
    pub source: u8,
    pub time: Picoseconds,
}
