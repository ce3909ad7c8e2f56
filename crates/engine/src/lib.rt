// The engine: a step, a run, and the two public entries.
#![tactic(auto)]

pub mod door;
pub mod formats;
pub mod spinning;
pub mod stepping;
pub mod window;

ghost use Rattle.std.specs.Prelude.{◌≡◌};
ghost use Rattle.machine.specs.Machine.{given, outcome, step_outcome, run_outcome};

use actions::{Now, Stop};
use machine::Reply;

// An instruction's halfwords from the counter on; those that its operation lacks are read with the rest.
#[derive(Clone, Copy, Debug, PartialEq, Eq)]
pub struct Text {
    pub h1: u16,
    pub h2: u16,
    pub h3: u16,
}

// How a run ended: what stopped it, or nothing but its budget; its completed steps, and the state's scalars.
#[derive(Clone, Copy, Debug, PartialEq, Eq)]
pub struct Ran<S> {
    pub stopped: Option<S>,
    pub count: u32,
    pub now: Now,
}

// How far the quick way went: the state's scalars there, how many steps are left, and whether it was stuck, so that the next one is for
// the plain step. (A flag: state and what is left are wanted in both cases, and one step more where it was stuck.)
#[derive(Clone, Copy, Debug, PartialEq, Eq)]
pub struct Spun {
    pub now: Now,
    pub left: u32,
    pub stuck: bool,
}

// One step from this state, the plain way: number 0 and count 1 where it completed. (Counter, code and mask one by one, and a function of its
// own beside the run: the exported functions are so.)
pub fn step(
    mem: &mut [u8],
    map: &mut [u16],
    regs: &mut [u32],
    pc: u32,
    code: u32,
    mask: u32,
) -> Reply
    ensures { outcome result mem.new map.new regs.new ≡ step_outcome (given mem.old map.old regs.old pc code mask) }
{
    let c = Now { pc, code, mask };
    if door::is_proper(mem, map, regs, c) {
        let out = stepping::step_once(regs, mem, map, c);
        return door::step_reply(c, out);
    }
    door::away(c)
}

// At most `budget` steps, up to the first refusal: 7 where the budget is spent.
pub fn run(
    mem: &mut [u8],
    map: &mut [u16],
    regs: &mut [u32],
    pc: u32,
    code: u32,
    mask: u32,
    budget: u32,
) -> Reply
    ensures { outcome result mem.new map.new regs.new ≡ run_outcome budget (given mem.old map.old regs.old pc code mask) }
{
    let c = Now { pc, code, mask };
    if door::is_proper(mem, map, regs, c) && budget <= 65535 {
        let ran = stepping::run_steps(regs, mem, map, c, budget);
        return door::run_reply(ran);
    }
    door::away(c)
}
