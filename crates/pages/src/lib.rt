// Pages: what a byte is wanted for, and what its look-up answers. What that means is in specs; the crate lookup does it.
#![tactic(auto)]

// What a byte is wanted for.
#[derive(Clone, Copy)]
pub enum Access {
    Fetch,
    Load,
    Store,
}

// Why a look-up refuses.
#[derive(Clone, Copy)]
pub enum Cause {
    Addressing,
    PagingQueue,
    PagingError,
}

// A byte that was found: its real address, and how many bytes from there the look-up reaches.
#[derive(Clone, Copy)]
pub struct Spot {
    pub at: usize,
    pub reach: u32,
}

// A byte that was refused: the cause, and the byte's own address.
#[derive(Clone, Copy)]
pub struct Refusal {
    pub cause: Cause,
    pub place: u32,
}
