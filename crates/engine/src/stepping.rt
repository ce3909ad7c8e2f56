// One step, the plain way; and a run of steps.
ghost use Rattle.std.specs.Prelude.{◌≡◌, ◌≤◌};
ghost use Rattle.pages.specs.Framed.{framed_of};
ghost use Rattle.machine.specs.Run.{run};
ghost use Rattle.machine.specs.Step.{step};
ghost use Rattle.machine.specs.Machine.{ops_for};
ghost use Rattle.actions.specs.Answered.{cpu_of, told, doing};
ghost use Rattle.engine.specs.Entry.{ran_as, Went};

use crate::{Ran, Spun, formats, spinning, window};
use actions::{Now, Stop};

// One step: its halfwords, and then its action, which finds the marks of the fetch set.
pub fn step_once(regs: &mut [u32], mem: &mut [u8], map: &mut [u16], c: Now) -> Result<Now, Stop>
    ensures { told result regs.new c (framed_of mem.new map.new) ≡ doing step regs.old c (framed_of mem.old map.old) }
{
    let pc = c.pc;
    if pc % 2 == 1 {
        return Err(Stop::Boundary(pc));
    }
    let text = formats::text(mem, map, pc)?;
    formats::finish(regs, mem, map, c, text)
}

// Steps of the quick way from c, where its page has a window.
fn hurry(regs: &mut [u32], mem: &mut [u8], map: &mut [u16], c: Now, budget: u32) -> Spun
    ensures { Went c budget regs.old mem.old map.old regs.new mem.new map.new result }
{
    if c.pc % 2 == 0 {
        if let Some(w) = window::open(mem, map, c.pc) {
            if window::is_inside(w, c.pc) {
                return spinning::spin(regs, mem, map, w, c, budget);
            }
        }
    }
    spinning::still(c, budget)
}

// At most a budget of steps, up to the first refusal: the quick way as far as it goes, then one plain step, and again.
pub fn run_steps(
    regs: &mut [u32],
    mem: &mut [u8],
    map: &mut [u16],
    c: Now,
    budget: u32,
) -> Ran<Stop>
    ensures { (ran_as result regs.new (framed_of mem.new map.new) ≡ run ops_for step budget (cpu_of regs.old c) (framed_of mem.old map.old)) × (result.count ≤ budget) }
{
    let mut at = c;
    let mut left = budget;
    // No `for`: a turn spends as many steps as the quick way did, and one more where it was stuck.
    while 0 < left {
        let spun = hurry(regs, mem, map, at, left);
        at = spun.now;
        left = spun.left;
        if spun.stuck {
            let out = step_once(regs, mem, map, at);
            match out {
                Err(stop) => {
                    return Ran {
                        stopped: Some(stop),
                        count: budget - left,
                        now: at,
                    };
                }
                Ok(next) => {
                    at = next;
                    left = left - 1;
                }
            }
        }
    }
    Ran {
        stopped: None,
        count: budget - left,
        now: at,
    }
}
