// The SS format: two fields of storage, the quick way. Where the look-ups of the two first bytes reach both ends, at once; over the edge of a
// page stretch by stretch (fields::spans); and where a byte may be refused, byte by byte (fields::each). plain.rt has the plain way.
ghost use Rattle.std.specs.Prelude.{◌≡◌};
ghost use Rattle.pages.specs.Framed.{framed_of};
ghost use Rattle.machine.specs.Ss.{ss, first_address, second_address};
ghost use Rattle.actions.specs.Answered.{cpu_of, told, doing};

use actions::{Now, Stop, registers};
use code::{SsAction, SsFields};
use pages::Access;

pub fn first_address(regs: &[u32], c: Now, f: SsFields) -> u32
    ensures { result ≡ first_address f (cpu_of regs.now c) }
{
    registers::address_of(regs, c, 0, f.b1, f.d1)
}

pub fn second_address(regs: &[u32], c: Now, f: SsFields) -> u32
    ensures { result ≡ second_address f (cpu_of regs.now c) }
{
    registers::address_of(regs, c, 0, f.b2, f.d2)
}

// MVC. What the look-ups found is handed on over an edge, so that no stretch is asked for twice.
fn move_fields(
    regs: &[u32],
    mem: &mut [u8],
    map: &mut [u16],
    c: Now,
    f: SsFields,
) -> Result<Now, Stop>
    ensures { told result regs.now c (framed_of mem.new map.new) ≡ doing (ss SsAction.MoveField f) regs.now c (framed_of mem.old map.old) }
{
    let n = u32::from(f.l) + 1;
    let to = first_address(regs, c, f);
    let from = second_address(regs, c, f);
    let pc = registers::ahead_of(regs, c, 6);
    let there = lookup::look_up(map, mem.len(), Access::Store, to)?;
    let Ok(here) = lookup::look_up(map, mem.len(), Access::Load, from) else {
        fields::each::move_field(mem, map, to, from, n)?;
        return Ok(Now { pc, ..c });
    };
    if n <= there.reach && n <= here.reach {
        lookup::mark(map, Access::Load, from);
        lookup::mark(map, Access::Store, to);
        fields::blocks::move_flat(mem, there.at, here.at, n);
        return Ok(Now { pc, ..c });
    }
    fields::spans::move_over(mem, map, to, from, n, there, here)?;
    Ok(Now { pc, ..c })
}

// CLC: the same. (Its own function: a compare is lent memory to read, as its type says.)
fn compare_fields(
    regs: &[u32],
    mem: &[u8],
    map: &mut [u16],
    c: Now,
    f: SsFields,
) -> Result<Now, Stop>
    ensures { told result regs.now c (framed_of mem.now map.new) ≡ doing (ss SsAction.CompareField f) regs.now c (framed_of mem.now map.old) }
{
    let n = u32::from(f.l) + 1;
    let first = first_address(regs, c, f);
    let second = second_address(regs, c, f);
    let pc = registers::ahead_of(regs, c, 6);
    let one = lookup::look_up(map, mem.len(), Access::Load, first)?;
    let Ok(other) = lookup::look_up(map, mem.len(), Access::Load, second) else {
        let code = fields::each::compare_field(mem, map, first, second, n)?;
        return Ok(Now { pc, code, ..c });
    };
    if n <= one.reach && n <= other.reach {
        lookup::mark(map, Access::Load, first);
        lookup::mark(map, Access::Load, second);
        let code = fields::blocks::compare_flat(mem, one.at, other.at, n);
        return Ok(Now { pc, code, ..c });
    }
    let code = fields::spans::compare_over(mem, map, first, second, n, one, other)?;
    Ok(Now { pc, code, ..c })
}

pub fn execute(
    regs: &[u32],
    mem: &mut [u8],
    map: &mut [u16],
    c: Now,
    x: SsAction,
    f: SsFields,
) -> Result<Now, Stop>
    ensures { told result regs.now c (framed_of mem.new map.new) ≡ doing (ss x f) regs.now c (framed_of mem.old map.old) }
{
    match x {
        SsAction::MoveField => move_fields(regs, mem, map, c, f),
        SsAction::CompareField => compare_fields(regs, mem, map, c, f),
    }
}
