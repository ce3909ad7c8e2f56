// The RX format: a register and a storage operand.
ghost use Rattle.std.specs.Prelude.{◌≡◌, true, ◌≤◌, ◌+◌, length};
ghost use Rattle.pages.specs.Framed.{framed_of};
ghost use Rattle.fields.specs.Direct.{flat};
ghost use Rattle.machine.specs.Prog.{done};
ghost use Rattle.machine.specs.Fields.{bytes_of};
ghost use Rattle.machine.specs.Rx.{rx, rx_address, width_of, taken};
ghost use Rattle.actions.specs.Answered.{cpu_of, told, doing};

use actions::{Now, Stop, branches, pairs, registers};
use code::{Branch, Operand, RxAction, RxFields, Width};
use pages::Access;
use words::{PairOp, Res};

fn operand_address(regs: &[u32], c: Now, f: RxFields) -> u32
    ensures { result ≡ rx_address f (cpu_of regs.now c) }
{
    registers::address_of(regs, c, f.x2, f.b2, f.d2)
}

fn width_of(op: Operand) -> Width
    ensures { result ≡ width_of op }
{
    match op {
        Operand::WordWith(_) => Width::Word,
        Operand::HalfWith(_) => Width::Half,
        Operand::ByteInserted => Width::Byte,
    }
}

// The operand at a real address, with register x.
fn take(mem: &[u8], op: Operand, at: usize, x: u32, code: u32) -> Res<u32>
    requires { at + bytes_of (width_of op) ≤ length mem.now }
    ensures { result ≡ taken op x (flat mem.now at (bytes_of (width_of op)) 0) code }
{
    match op {
        Operand::WordWith(alu) => arithmetic::combine(alu, x, fields::flat::word_of(mem, at), code),
        Operand::HalfWith(alu) => arithmetic::combine(
            alu,
            x,
            arithmetic::widen(fields::flat::half_of(mem, at)),
            code,
        ),
        Operand::ByteInserted => Res {
            value: x / 256 * 256 + u32::from(fields::flat::byte_of(mem, at)),
            code,
            over: false,
        },
    }
}

// L A S C AL SL CL N O X, LH AH SH CH MH, IC.
fn load(
    regs: &mut [u32],
    mem: &[u8],
    map: &mut [u16],
    c: Now,
    op: Operand,
    f: RxFields,
) -> Result<Now, Stop>
    ensures { told result regs.new c (framed_of mem.now map.new) ≡ doing (rx (RxAction.Taking op) f) regs.old c (framed_of mem.now map.old) }
{
    let at = operand_address(regs, c, f);
    let width = width_of(op);
    if fields::is_off(at, width) {
        return Err(Stop::Boundary(at));
    }
    let found = fields::look_operand(map, mem.len(), Access::Load, at, fields::bytes_of(width))?;
    let result = take(mem, op, found.at, registers::reg(regs, f.r1), c.code);
    lookup::mark(map, Access::Load, at);
    let next = registers::ahead_of(regs, c, 4);
    registers::put_reg(regs, f.r1, result.value);
    Ok(Now {
        pc: next,
        code: result.code,
        ..c
    })
}

// ST STH STC. (Not one function with `load`: which of registers and memory may change stands in the types.)
fn store(
    regs: &[u32],
    mem: &mut [u8],
    map: &mut [u16],
    c: Now,
    width: Width,
    f: RxFields,
) -> Result<Now, Stop>
    ensures { told result regs.now c (framed_of mem.new map.new) ≡ doing (rx (RxAction.Storing width) f) regs.now c (framed_of mem.old map.old) }
{
    let at = operand_address(regs, c, f);
    if fields::is_off(at, width) {
        return Err(Stop::Boundary(at));
    }
    let found = fields::look_operand(map, mem.len(), Access::Store, at, fields::bytes_of(width))?;
    fields::flat::put_field(mem, found.at, width, registers::reg(regs, f.r1));
    lookup::mark(map, Access::Store, at);
    Ok(Now {
        pc: registers::ahead_of(regs, c, 4),
        ..c
    })
}

// LA.
pub fn load_address(regs: &mut [u32], c: Now, f: RxFields) -> Now
    ensures { done (cpu_of regs.new result) ≡ rx RxAction.LoadAddress f (cpu_of regs.old c) }
{
    let at = operand_address(regs, c, f);
    let next = registers::ahead_of(regs, c, 4);
    registers::put_reg(regs, f.r1, at);
    Now { pc: next, ..c }
}

// BC BAL BCT.
fn branch(regs: &mut [u32], c: Now, kind: Branch, f: RxFields) -> Now
    ensures { done (cpu_of regs.new result) ≡ rx (RxAction.AddressBranch kind) f (cpu_of regs.old c) }
{
    let to = operand_address(regs, c, f);
    branches::take(regs, c, kind, 4, f.r1, to, true)
}

// M D. The page gets its mark when there is a quotient.
fn pair(
    regs: &mut [u32],
    mem: &[u8],
    map: &mut [u16],
    c: Now,
    op: PairOp,
    f: RxFields,
) -> Result<Now, Stop>
    ensures { told result regs.new c (framed_of mem.now map.new) ≡ doing (rx (RxAction.PairAndWord op) f) regs.old c (framed_of mem.now map.old) }
{
    if f.r1 % 2 != 0 {
        return Err(Stop::Boundary(c.pc));
    }
    let at = operand_address(regs, c, f);
    if at % 4 != 0 {
        return Err(Stop::Boundary(at));
    }
    let found = fields::look_operand(map, mem.len(), Access::Load, at, 4)?;
    let now = pairs::work(regs, c, op, f.r1, fields::flat::word_of(mem, found.at), 4)?;
    lookup::mark(map, Access::Load, at);
    Ok(now)
}

pub fn execute(
    regs: &mut [u32],
    mem: &mut [u8],
    map: &mut [u16],
    c: Now,
    x: RxAction,
    f: RxFields,
) -> Result<Now, Stop>
    ensures { told result regs.new c (framed_of mem.new map.new) ≡ doing (rx x f) regs.old c (framed_of mem.old map.old) }
{
    match x {
        RxAction::Taking(op) => load(regs, mem, map, c, op, f),
        RxAction::Storing(width) => store(regs, mem, map, c, width, f),
        RxAction::LoadAddress => Ok(load_address(regs, c, f)),
        RxAction::AddressBranch(kind) => Ok(branch(regs, c, kind, f)),
        RxAction::PairAndWord(op) => pair(regs, mem, map, c, op, f),
    }
}
