// The machine's answer to a step or a run, in numbers: document 01's number, place and count, and the state's scalars afterwards. It is what
// the exported functions hand out, so that a refusal is a number here.
// All else of this crate is definitions (specs) and their laws (proofs).
#![tactic(auto)]

#[derive(Clone, Copy)]
pub struct Reply {
    pub number: u32,
    pub place: u32,
    pub count: u32,
    pub pc: u32,
    pub code: u32,
    pub mask: u32,
}
