// The quick loop: instruction after instruction within one window, as long as the rows of the quick way do them.
ghost use Rattle.std.specs.Prelude.{◌≡◌, true, ◌%◌, length};
ghost use Rattle.engine.specs.Entry.{Ready, inside, Went};

use crate::Spun;
use actions::Now;
use quick::{Here, Turn, Window};

// Nothing done.
pub fn still(c: Now, budget: u32) -> Spun
    ensures { (result.now ≡ c) × (result.left ≡ budget) × (result.stuck ≡ true) }
{
    Spun {
        now: c,
        left: budget,
        stuck: true,
    }
}

// At most a budget of steps from c, which lies in the window: to the first instruction that the quick way leaves undone, or out of the
// window. Asked for here, the lists' sizes are known to the compiler in the loop; its variable is the place in memory, and the counter is
// made of it at the end.
pub fn spin(
    regs: &mut [u32],
    mem: &mut [u8],
    map: &mut [u16],
    w: Window,
    c: Now,
    budget: u32,
) -> Spun
    requires { Ready w map.old (length mem.old) × (inside w c.pc ≡ true) × (c.pc % 2 ≡ 0) }
    ensures { Went c budget regs.old mem.old map.old regs.new mem.new map.new result }
{
    if regs.len() != 16 {
        return still(c, budget);
    }
    if map.len() != 512 {
        return still(c, budget);
    }
    let mask = c.mask;
    let last = w.base + w.len as usize;
    let mut at = w.base + (c.pc - w.first) as usize;
    let mut code = c.code;
    let mut left = budget;
    // No `for`: an instruction that is left undone spends nothing, and what is left is handed back.
    while 0 < left {
        let p = Here {
            window: w,
            at,
            text: fields::flat::half_of(mem, at),
            code,
            mask,
        };
        let turn = quick::table::one(regs, mem, map, p);
        match turn {
            Turn::On(next, k) => {
                left = left - 1;
                if last <= next {
                    return Spun {
                        now: Now {
                            pc: w.first + (next - w.base) as u32,
                            code: k,
                            mask,
                        },
                        left,
                        stuck: false,
                    };
                }
                at = next;
                code = k;
            }
            Turn::Away(pc, k) => {
                return Spun {
                    now: Now { pc, code: k, mask },
                    left: left - 1,
                    stuck: false,
                };
            }
            Turn::Undone(pc, k) => {
                return Spun {
                    now: Now { pc, code: k, mask },
                    left,
                    stuck: true,
                };
            }
        }
    }
    Spun {
        now: Now {
            pc: w.first + (at - w.base) as u32,
            code,
            mask,
        },
        left,
        stuck: false,
    }
}
