// The rows of the quick way: an operation code, and what is done, with its constants in the row, so that the compiler makes each by itself.
ghost use Rattle.std.specs.Prelude.{◌+◌, ◌≤◌, ◌<◌, length};
ghost use Rattle.actions.specs.declared.Now as scalars;
ghost use Rattle.actions.specs.Whole.{whole};
ghost use Rattle.fields.specs.Direct.{flat};
ghost use Rattle.quick.specs.Turns.{address_at, Sized, FieldLook, Turned};

use crate::branches::*;
use crate::free::*;
use crate::moves::*;
use crate::places::*;
use crate::storage::*;
use crate::{Here, Turn};
use code::Width::*;
use pages::{Access as To, Spot};
use words::Alu::*;
use words::Direction::*;
use words::Logic::*;
use words::PairOp::*;

// The operand of the RX format, to be read or stored.
fn rx(regs: &[u32], mem: &[u8], map: &[u16], p: Here, to: To, n: u32) -> Option<Spot>
    requires { (0 < n) × Sized regs.now map.now × (p.at + 4 ≤ length mem.now) }
    ensures { (c : scalars.Now) → FieldLook result map.now (length mem.now) to n (address_at regs.now c mem.now p.text (p.at + 2)) }
{
    operand(regs, mem, map, to, p.text, p.at, n)
}

// Of the RS and SI formats, which have no index. (Two functions of one constant: a row has to stay on its line.)
fn rs(regs: &[u32], mem: &[u8], map: &[u16], p: Here, to: To, n: u32) -> Option<Spot>
    requires { (0 < n) × Sized regs.now map.now × (p.at + 4 ≤ length mem.now) }
    ensures { (c : scalars.Now) → FieldLook result map.now (length mem.now) to n (address_at regs.now c mem.now 0 (p.at + 2)) }
{
    operand(regs, mem, map, to, 0, p.at, n)
}

// The instruction here.
pub fn one(regs: &mut [u32], mem: &mut [u8], map: &mut [u16], p: Here) -> Turn
    requires { Sized regs.old map.old × (p.at + 6 ≤ length mem.old) }
    ensures { Turned result p (whole p.text (flat mem.old (p.at + 2) 2 0) (flat mem.old (p.at + 4) 2 0)) regs.old mem.old map.old regs.new mem.new map.new }
{
    let at = p.at;
    let h1 = p.text;
    match (h1 / 256) as u8 {
        0x18 => between(regs, p, Load), // LR
        0x12 => between(regs, p, Test), // LTR
        0x13 => between(regs, p, Complement), // LCR
        0x10 => between(regs, p, Positive), // LPR
        0x11 => between(regs, p, Negative), // LNR
        0x1A => between(regs, p, Add), // AR
        0x1B => between(regs, p, Subtract), // SR
        0x19 => between(regs, p, Compare), // CR
        0x1E => between(regs, p, AddLogical), // ALR
        0x1F => between(regs, p, SubtractLogical), // SLR
        0x15 => between(regs, p, CompareLogical), // CLR
        0x14 => between(regs, p, Bits(And)), // NR
        0x16 => between(regs, p, Bits(Or)), // OR
        0x17 => between(regs, p, Bits(Xor)), // XR
        0x1C => pair_between(regs, p, Multiply), // MR
        0x1D => pair_between(regs, p, Divide), // DR
        0x07 => condition(regs, p, 2, target(regs, h1), 0 < h1 % 16), // BCR
        0x05 => link(regs, p, 2, target(regs, h1), 0 < h1 % 16), // BALR
        0x06 => count(regs, p, 2, target(regs, h1), 0 < h1 % 16), // BCTR
        0x58 => word(regs, mem, p, Load, rx(regs, mem, map, p, To::Load, 4)), // L
        0x5A => word(regs, mem, p, Add, rx(regs, mem, map, p, To::Load, 4)), // A
        0x5B => word(regs, mem, p, Subtract, rx(regs, mem, map, p, To::Load, 4)), // S
        0x59 => word(regs, mem, p, Compare, rx(regs, mem, map, p, To::Load, 4)), // C
        0x5E => word(regs, mem, p, AddLogical, rx(regs, mem, map, p, To::Load, 4)), // AL
        0x5F => word(
            regs,
            mem,
            p,
            SubtractLogical,
            rx(regs, mem, map, p, To::Load, 4),
        ), // SL
        0x55 => word(
            regs,
            mem,
            p,
            CompareLogical,
            rx(regs, mem, map, p, To::Load, 4),
        ), // CL
        0x54 => word(regs, mem, p, Bits(And), rx(regs, mem, map, p, To::Load, 4)), // N
        0x56 => word(regs, mem, p, Bits(Or), rx(regs, mem, map, p, To::Load, 4)), // O
        0x57 => word(regs, mem, p, Bits(Xor), rx(regs, mem, map, p, To::Load, 4)), // X
        0x48 => half(regs, mem, p, Load, rx(regs, mem, map, p, To::Load, 2)), // LH
        0x4A => half(regs, mem, p, Add, rx(regs, mem, map, p, To::Load, 2)), // AH
        0x4B => half(regs, mem, p, Subtract, rx(regs, mem, map, p, To::Load, 2)), // SH
        0x49 => half(regs, mem, p, Compare, rx(regs, mem, map, p, To::Load, 2)), // CH
        0x4C => half(regs, mem, p, LowProduct, rx(regs, mem, map, p, To::Load, 2)), // MH
        0x43 => insert(regs, mem, p, rx(regs, mem, map, p, To::Load, 1)), // IC
        0x50 => store(regs, mem, p, Word, rx(regs, mem, map, p, To::Store, 4)), // ST
        0x40 => store(regs, mem, p, Half, rx(regs, mem, map, p, To::Store, 2)), // STH
        0x42 => store(regs, mem, p, Byte, rx(regs, mem, map, p, To::Store, 1)), // STC
        0x5C => multiply(regs, mem, p, rx(regs, mem, map, p, To::Load, 4)), // M
        0x5D => divide(regs, mem, p, rx(regs, mem, map, p, To::Load, 4)), // D
        0x41 => load_address(regs, mem, p), // LA
        0x47 => condition(regs, p, 4, address(regs, mem, h1, at + 2), true), // BC
        0x45 => link(regs, p, 4, address(regs, mem, h1, at + 2), true), // BAL
        0x46 => count(regs, p, 4, address(regs, mem, h1, at + 2), true), // BCT
        0x86 => index(regs, mem, p, true), // BXH
        0x87 => index(regs, mem, p, false), // BXLE
        0x89 => shift_logical(regs, mem, p, Left), // SLL
        0x88 => shift_logical(regs, mem, p, Right), // SRL
        0x8B => shift_signed(regs, mem, p, Left), // SLA
        0x8A => shift_signed(regs, mem, p, Right), // SRA
        0x8F => shift_double(regs, mem, p, Left), // SLDA
        0x8E => shift_double(regs, mem, p, Right), // SRDA
        0x98 => load_many(regs, mem, p, rs(regs, mem, map, p, To::Load, 4)), // LM
        0x90 => store_many(regs, mem, p, rs(regs, mem, map, p, To::Store, 4)), // STM
        0x95 => compare(mem, p, rs(regs, mem, map, p, To::Load, 1)), // CLI
        0x91 => test(mem, p, rs(regs, mem, map, p, To::Load, 1)), // TM
        0x94 => bits(mem, p, And, rs(regs, mem, map, p, To::Store, 1)), // NI
        0x96 => bits(mem, p, Or, rs(regs, mem, map, p, To::Store, 1)), // OI
        0x97 => bits(mem, p, Xor, rs(regs, mem, map, p, To::Store, 1)), // XI
        0x92 => put(mem, p, rs(regs, mem, map, p, To::Store, 1)), // MVI
        0xD2 => moves(regs, mem, map, p), // MVC
        0xD5 => compares(regs, mem, map, p), // CLC
        _ => p.undone(),
    }
}
