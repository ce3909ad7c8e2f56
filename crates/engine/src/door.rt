// Number 6 at the door, and replies in numbers.
ghost use Rattle.std.specs.Prelude.{◌≡◌, ℕ, []};
ghost use Rattle.machine.specs.Machine.{given, proper, turned_away};
ghost use Rattle.actions.specs.Answered.{number, place};
ghost use Rattle.engine.specs.Entry.{replied, step_reply_by, ran_reply_by};

use crate::Ran;
use actions::{Now, Stop};
use machine::Reply;

// What stopped an instruction, as a reply hands it out: one of document 01's refusals, or any number and place.
pub trait Numbered {
    ghost number_of: { Self → ℕ };

    ghost place_of: { Self → ℕ };

    // The number, and the place.
    fn numbers(self) -> (u32, u32)
        ensures { (result.0 ≡ number_of self) × (result.1 ≡ place_of self) };
}

impl Numbered for Stop {
    ghost number_of = { λ stop. number stop };

    ghost place_of = { λ stop. place stop };

    fn numbers(self) -> (u32, u32) {
        (self.number(), self.place())
    }
}

impl Numbered for (u32, u32) {
    ghost number_of = { λ pair. pair.0 };

    ghost place_of = { λ pair. pair.1 };

    fn numbers(self) -> (u32, u32) {
        (self.0, self.1)
    }
}

// Lists of the right size, and counter, code and mask in range. (One by one: as one `&&` of eight, the proof goes by cases at each.)
pub fn is_proper(mem: &[u8], map: &[u16], regs: &[u32], c: Now) -> bool
    ensures { result ≡ proper (given mem.now map.now regs.now c.pc c.code c.mask) }
{
    let size = mem.len();
    if regs.len() != 16 {
        return false;
    }
    if map.len() != 512 {
        return false;
    }
    if size % 4096 != 0 {
        return false;
    }
    if size < 4096 {
        return false;
    }
    if 262144 < size {
        return false;
    }
    if 16777216 <= c.pc {
        return false;
    }
    if 4 <= c.code {
        return false;
    }
    c.mask < 16
}

// Numbers again, as the exported functions hand them out.
fn reply(number: u32, place: u32, count: u32, now: Now) -> Reply
    ensures { result ≡ replied number place count now }
{
    let Now { pc, code, mask } = now;
    Reply {
        number,
        place,
        count,
        pc,
        code,
        mask,
    }
}

// Number 6: place and count 0, nothing altered.
pub fn away(c: Now) -> Reply
    ensures { result ≡ (turned_away (given [] [] [] c.pc c.code c.mask)).reply }
{
    reply(6, 0, 0, c)
}

// A step's reply: completed, or refused with the state as it was.
pub fn step_reply<S: Numbered>(c: Now, out: Result<Now, S>) -> Reply
    ensures { result ≡ step_reply_by S.number_of S.place_of c out }
{
    match out {
        Ok(n) => reply(0, 0, 1, n),
        Err(stop) => {
            let (number, place) = stop.numbers();
            reply(number, place, 0, c)
        }
    }
}

// A run's: refused, or 7 where the budget is spent.
pub fn run_reply<S: Numbered>(r: Ran<S>) -> Reply
    ensures { result ≡ ran_reply_by S.number_of S.place_of r }
{
    let Ran {
        stopped,
        count,
        now,
    } = r;
    match stopped {
        Some(stop) => {
            let (number, place) = stop.numbers();
            reply(number, place, count, now)
        }
        None => reply(7, 0, count, now),
    }
}
