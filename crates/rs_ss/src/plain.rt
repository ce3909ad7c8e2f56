// The SS format byte by byte: the meaning in code, for ss.rt to be held to.
ghost use Rattle.std.specs.Prelude.{◌≡◌};
ghost use Rattle.pages.specs.Framed.{framed_of};
ghost use Rattle.machine.specs.Ss.{ss};
ghost use Rattle.actions.specs.Answered.{told, doing};

use crate::ss;
use actions::{Now, Stop, registers};
use code::{SsAction, SsFields};

// MVC.
fn move_fields(
    regs: &[u32],
    mem: &mut [u8],
    map: &mut [u16],
    c: Now,
    f: SsFields,
) -> Result<Now, Stop>
    ensures { told result regs.now c (framed_of mem.new map.new) ≡ doing (ss SsAction.MoveField f) regs.now c (framed_of mem.old map.old) }
{
    let n = u32::from(f.l) + 1;
    let to = ss::first_address(regs, c, f);
    let from = ss::second_address(regs, c, f);
    let pc = registers::ahead_of(regs, c, 6);
    fields::each::move_field(mem, map, to, from, n)?;
    Ok(Now { pc, ..c })
}

// CLC. (Its own function: a compare is lent memory to read, as its type says.)
fn compare_fields(
    regs: &[u32],
    mem: &[u8],
    map: &mut [u16],
    c: Now,
    f: SsFields,
) -> Result<Now, Stop>
    ensures { told result regs.now c (framed_of mem.now map.new) ≡ doing (ss SsAction.CompareField f) regs.now c (framed_of mem.now map.old) }
{
    let n = u32::from(f.l) + 1;
    let first = ss::first_address(regs, c, f);
    let second = ss::second_address(regs, c, f);
    let pc = registers::ahead_of(regs, c, 6);
    let code = fields::each::compare_field(mem, map, first, second, n)?;
    Ok(Now { pc, code, ..c })
}

pub fn execute(
    regs: &[u32],
    mem: &mut [u8],
    map: &mut [u16],
    c: Now,
    x: SsAction,
    f: SsFields,
) -> Result<Now, Stop>
    ensures { told result regs.now c (framed_of mem.new map.new) ≡ doing (ss x f) regs.now c (framed_of mem.old map.old) }
{
    match x {
        SsAction::MoveField => move_fields(regs, mem, map, c, f),
        SsAction::CompareField => compare_fields(regs, mem, map, c, f),
    }
}

// What the two ways answer.
#[derive(Clone, Copy)]
pub struct Ways {
    pub quick: Result<Now, Stop>,
    pub plain: Result<Now, Stop>,
}

// The theorem, said of the code itself: from the same registers, state and instruction, and from two memories and maps that are alike, the
// quick way and this one give the same answer, refusal and place included, and leave memories and maps that are alike. For every input:
// nothing else is asked.
pub fn both(
    regs: &[u32],
    mem: &mut [u8],
    map: &mut [u16],
    mem2: &mut [u8],
    map2: &mut [u16],
    c: Now,
    x: SsAction,
    f: SsFields,
) -> Ways
    requires { (mem.old ≡ mem2.old) × (map.old ≡ map2.old) }
    ensures { (result.quick ≡ result.plain) × (mem.new ≡ mem2.new) × (map.new ≡ map2.new) }
{
    let quick = ss::execute(regs, mem, map, c, x, f);
    let plain = execute(regs, mem2, map2, c, x, f);
    Ways { quick, plain }
}
