// The quick way of a run, beside the plain step. An instruction is done whole, or not at all, where everything is ordinary: it lies in the
// run's window, every page that it touches has the marks of the access already, and nothing is refused. What is done is the definition's
// step; of whatever else comes it says `Undone`, and the plain step does it. A row that is missing here is slow, and never wrong.
#![tactic(auto)]

pub mod branches; // branches.rt: rows that branch
pub mod free; // free.rt: rows that touch no storage
pub mod moves; // moves.rt: moves and compares of two fields
pub mod places; // places.rt: where an operand is
pub mod storage; // storage.rt: rows with one operand in storage
pub mod table; // table.rt: the rows, by operation code

ghost use Rattle.std.specs.Prelude.{◌≡◌};
ghost use Rattle.quick.specs.declared.Turn.TheVariants.{Undone};
ghost use Rattle.quick.specs.Places.{counter_at, Placed};

use actions::Now;

// Where a run fetches from without looking up: a page that has its mark, from its first address on, as far as six bytes still lie in what
// the look-up reaches, and where it begins in memory.
#[derive(Clone, Copy)]
pub struct Window {
    pub first: u32,
    pub len: u32,
    pub base: usize,
}

// An instruction was done, and the next one lies at this place in memory, with this code; or it was done, and the counter, here, has left
// the window; or nothing was done, and counter and code are handed back as they were. (Said again, they need not be kept beside the
// answer: measured, five instructions in each of the guest's.)
#[derive(Clone, Copy)]
pub enum Turn {
    On(usize, u32),
    Away(u32, u32),
    Undone(u32, u32),
}

// Where a run is in its window: the instruction's place in memory and its first halfword, and the state's scalars but for the counter.
#[derive(Clone, Copy)]
pub struct Here {
    pub window: Window,
    pub at: usize,
    pub text: u16,
    pub code: u32,
    pub mask: u32,
    pub ghost placed: { Placed window at },
}

impl Here {
    ghost use Rattle.quick.specs.Turns.{now_of};

    // The counter, from the place.
    pub fn counter(self) -> u32
        ensures { result ≡ counter_at self.window self.at }
    {
        let w = self.window;
        w.first + (self.at - w.base) as u32
    }

    pub fn state(self) -> Now
        ensures { result ≡ now_of self }
    {
        Now {
            pc: self.counter(),
            code: self.code,
            mask: self.mask,
        }
    }

    pub fn undone(self) -> Turn
        ensures { result ≡ Undone (counter_at self.window self.at) self.code }
    {
        Turn::Undone(self.counter(), self.code)
    }
}
