// The SI format: a byte of storage and an immediate byte.
ghost use Rattle.std.specs.Prelude.{◌≡◌};
ghost use Rattle.words.specs.Pick.{pick};
ghost use Rattle.words.specs.Codes.{compare_bits, mask_code};
ghost use Rattle.pages.specs.Framed.{framed_of};
ghost use Rattle.machine.specs.Si.{si, si_address};
ghost use Rattle.actions.specs.Answered.{cpu_of, told, doing};

use actions::{Now, Stop, registers};
use code::{SiAction, SiFields};
use pages::Access;
use words::Logic;

fn operand_address(regs: &[u32], c: Now, f: SiFields) -> u32
    ensures { result ≡ si_address f (cpu_of regs.now c) }
{
    registers::address_of(regs, c, 0, f.b1, f.d1)
}

// The code of a byte, under a mask or compared with another.
fn code_of(masked: bool, b: u8, i2: u8) -> u32
    ensures { result ≡ pick masked (mask_code b i2) (compare_bits b i2) }
{
    if masked {
        return arithmetic::mask_code(b, i2);
    }
    arithmetic::compare_bits(u32::from(b), u32::from(i2))
}

// TM where `masked`, else CLI.
fn examine(
    regs: &[u32],
    mem: &[u8],
    map: &mut [u16],
    c: Now,
    masked: bool,
    f: SiFields,
) -> Result<Now, Stop>
    ensures { told result regs.now c (framed_of mem.now map.new) ≡ doing (si (pick masked SiAction.TestMask SiAction.CompareByte) f) regs.now c (framed_of mem.now map.old) }
{
    let at = operand_address(regs, c, f);
    let found = lookup::look_up(map, mem.len(), Access::Load, at)?;
    let b = fields::flat::byte_of(mem, found.at);
    lookup::mark(map, Access::Load, at);
    let pc = registers::ahead_of(regs, c, 4);
    let code = code_of(masked, b, f.i2);
    Ok(Now { pc, code, ..c })
}

// NI OI XI.
fn bits(
    regs: &[u32],
    mem: &mut [u8],
    map: &mut [u16],
    c: Now,
    op: Logic,
    f: SiFields,
) -> Result<Now, Stop>
    ensures { told result regs.now c (framed_of mem.new map.new) ≡ doing (si (SiAction.BitsByte op) f) regs.now c (framed_of mem.old map.old) }
{
    let at = operand_address(regs, c, f);
    let found = lookup::look_up(map, mem.len(), Access::Store, at)?;
    let v = arithmetic::bits::logic(op, fields::flat::byte_of(mem, found.at), f.i2);
    fields::flat::put_byte(mem, found.at, v);
    lookup::mark(map, Access::Store, at);
    Ok(Now {
        pc: registers::ahead_of(regs, c, 4),
        code: arithmetic::zero_code(u32::from(v)),
        ..c
    })
}

// MVI. (Not one function with `bits`, which reads the byte and makes a code of it.)
fn store(regs: &[u32], mem: &mut [u8], map: &mut [u16], c: Now, f: SiFields) -> Result<Now, Stop>
    ensures { told result regs.now c (framed_of mem.new map.new) ≡ doing (si SiAction.MoveByte f) regs.now c (framed_of mem.old map.old) }
{
    let at = operand_address(regs, c, f);
    let found = lookup::look_up(map, mem.len(), Access::Store, at)?;
    fields::flat::put_byte(mem, found.at, f.i2);
    lookup::mark(map, Access::Store, at);
    Ok(Now {
        pc: registers::ahead_of(regs, c, 4),
        ..c
    })
}

pub fn execute(
    regs: &[u32],
    mem: &mut [u8],
    map: &mut [u16],
    c: Now,
    x: SiAction,
    f: SiFields,
) -> Result<Now, Stop>
    ensures { told result regs.now c (framed_of mem.new map.new) ≡ doing (si x f) regs.now c (framed_of mem.old map.old) }
{
    match x {
        SiAction::CompareByte => examine(regs, mem, map, c, false, f),
        SiAction::TestMask => examine(regs, mem, map, c, true, f),
        SiAction::BitsByte(op) => bits(regs, mem, map, c, op, f),
        SiAction::MoveByte => store(regs, mem, map, c, f),
    }
}
