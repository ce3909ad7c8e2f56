// What the executors share: the state's scalars, an executor's answer, registers, pairs and branches; and the executor of the RR format.
#![tactic(auto)]

pub mod branches;
pub mod pairs;
pub mod registers;
pub mod rr;

ghost use Rattle.std.specs.Prelude.{◌≡◌};
ghost use Rattle.actions.specs.Answered.{number, place, refusal_of};

use pages::{Cause, Refusal};

// The state's scalars; the registers are lent beside it, and so are memory and map, one by one: a parameter's type says which of the three an
// instruction may change. Twelve bytes: a struct of eight is carried as one number, and then the next
// fetch waits for the condition code (measured: 17 ns an instruction instead of 7).
#[derive(Clone, Copy, Debug, PartialEq, Eq)]
pub struct Now {
    pub pc: u32,
    pub code: u32,
    pub mask: u32,
}

// Why an instruction stops, and at which place: an executor answers with the scalars afterwards, or with this.
#[derive(Clone, Copy, Debug, PartialEq, Eq)]
pub enum Stop {
    Addressing(u32),
    Boundary(u32),
    PagingQueue(u32),
    PagingError(u32),
    Unknown(u32),
    Divide(u32),
}

impl Stop {
    // Document 01's number.
    pub fn number(self) -> u32
        ensures { result ≡ number self }
    {
        match self {
            Stop::Addressing(_) => 1,
            Stop::Boundary(_) => 2,
            Stop::PagingQueue(_) => 3,
            Stop::PagingError(_) => 4,
            Stop::Unknown(_) => 5,
            Stop::Divide(_) => 8,
        }
    }

    pub fn place(self) -> u32
        ensures { result ≡ place self }
    {
        match self {
            Stop::Addressing(at)
            | Stop::Boundary(at)
            | Stop::PagingQueue(at)
            | Stop::PagingError(at)
            | Stop::Unknown(at)
            | Stop::Divide(at) => at,
        }
    }
}

// A look-up's refusal, handed on.
impl From<Refusal> for Stop {
    ghost from_gives = { λ r stop. stop ≡ refusal_of r };

    fn from(refused: Refusal) -> Stop {
        match refused.cause {
            Cause::Addressing => Stop::Addressing(refused.place),
            Cause::PagingQueue => Stop::PagingQueue(refused.place),
            Cause::PagingError => Stop::PagingError(refused.place),
        }
    }
}
