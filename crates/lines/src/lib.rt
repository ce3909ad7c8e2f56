// A listing of code bytes: what it tells of its lines. What the lines are and say is in specs, their laws in proofs; the crate listing
// writes them.
#![tactic(auto)]

#[derive(Clone, Copy)]
pub struct Listed {
    pub lines: usize, // how many lines were written
    pub next: usize, // the code byte to go on from
    pub written: usize, // how many bytes of the output the lines take
}

// The start is no address of 24 bits: nothing was listed.
#[derive(Clone, Copy)]
pub struct StartOutOfRange;
