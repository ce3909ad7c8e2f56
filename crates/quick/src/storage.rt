// Rows with one operand in storage: what `places::operand` found is taken, or the row is not done. The work is by real address, and sets no mark.
// (`Lies`, that what was found lies in the memory that is lent, relates two parameters: no one value could keep it.)
ghost use Rattle.std.specs.Prelude.{◌*◌, length};
ghost use Rattle.code.specs.declared.Operand.TheVariants.{WordWith, HalfWith, ByteInserted};
ghost use Rattle.machine.specs.Fields.{bytes_of};
ghost use Rattle.quick.specs.Turns.{Lies, Did, Paired, PairDid};
ghost use Rattle.quick.specs.Work.{loads, stores, compares_byte, tests_byte, changes_byte, puts_byte, many_of, fills, spills};

use crate::{Here, Turn};
use actions::registers;
use code::Width;
use pages::Spot;
use words::{Alu, Logic, PairOp};

// L A S C AL SL CL N O X.
pub fn word(regs: &mut [u32], mem: &[u8], p: Here, op: Alu, found: Option<Spot>) -> Turn
    requires { Lies found (length mem.now) }
    ensures { Did result p found 4 4 (loads (WordWith op) p.text p.code mem.now regs.old) regs.old regs.new }
{
    let Some(s) = found else {
        return p.undone();
    };
    if s.reach < 4 {
        return p.undone();
    }
    let r = (p.text / 16 % 16) as u8;
    let v = fields::flat::word_of(mem, s.at);
    let result = arithmetic::combine(op, registers::reg(regs, r), v, p.code);
    registers::put_reg(regs, r, result.value);
    Turn::On(p.at + 4, result.code)
}

// LH AH SH CH MH. (Beside `word`: bytes, test and widening differ, and each has its constants.)
pub fn half(regs: &mut [u32], mem: &[u8], p: Here, op: Alu, found: Option<Spot>) -> Turn
    requires { Lies found (length mem.now) }
    ensures { Did result p found 2 4 (loads (HalfWith op) p.text p.code mem.now regs.old) regs.old regs.new }
{
    let Some(s) = found else {
        return p.undone();
    };
    if s.reach < 2 {
        return p.undone();
    }
    let r = (p.text / 16 % 16) as u8;
    let v = arithmetic::widen(fields::flat::half_of(mem, s.at));
    let result = arithmetic::combine(op, registers::reg(regs, r), v, p.code);
    registers::put_reg(regs, r, result.value);
    Turn::On(p.at + 4, result.code)
}

// IC.
pub fn insert(regs: &mut [u32], mem: &[u8], p: Here, found: Option<Spot>) -> Turn
    requires { Lies found (length mem.now) }
    ensures { Did result p found 1 4 (loads ByteInserted p.text p.code mem.now regs.old) regs.old regs.new }
{
    let Some(s) = found else {
        return p.undone();
    };
    if s.reach < 1 {
        return p.undone();
    }
    let r = (p.text / 16 % 16) as u8;
    let b = fields::flat::byte_of(mem, s.at);
    let x = registers::reg(regs, r);
    registers::put_reg(regs, r, x / 256 * 256 + u32::from(b));
    Turn::On(p.at + 4, p.code)
}

// ST STH STC.
pub fn store(regs: &[u32], mem: &mut [u8], p: Here, width: Width, found: Option<Spot>) -> Turn
    requires { Lies found (length mem.old) }
    ensures { Did result p found (bytes_of width) 4 (stores width p.text p.code regs.now mem.old) mem.old mem.new }
{
    let Some(s) = found else {
        return p.undone();
    };
    if s.reach < fields::bytes_of(width) {
        return p.undone();
    }
    let v = registers::reg(regs, (p.text / 16 % 16) as u8);
    fields::flat::put_field(mem, s.at, width, v);
    Turn::On(p.at + 4, p.code)
}

// CLI.
pub fn compare(mem: &[u8], p: Here, found: Option<Spot>) -> Turn
    requires { Lies found (length mem.now) }
    ensures { Did result p found 1 4 (compares_byte p.text mem.now) mem.now mem.now }
{
    let Some(s) = found else {
        return p.undone();
    };
    if s.reach < 1 {
        return p.undone();
    }
    let b = fields::flat::byte_of(mem, s.at);
    Turn::On(
        p.at + 4,
        arithmetic::compare_bits(u32::from(b), u32::from(p.text % 256)),
    )
}

// TM.
pub fn test(mem: &[u8], p: Here, found: Option<Spot>) -> Turn
    requires { Lies found (length mem.now) }
    ensures { Did result p found 1 4 (tests_byte p.text mem.now) mem.now mem.now }
{
    let Some(s) = found else {
        return p.undone();
    };
    if s.reach < 1 {
        return p.undone();
    }
    let b = fields::flat::byte_of(mem, s.at);
    Turn::On(p.at + 4, arithmetic::mask_code(b, (p.text % 256) as u8))
}

// NI OI XI.
pub fn bits(mem: &mut [u8], p: Here, op: Logic, found: Option<Spot>) -> Turn
    requires { Lies found (length mem.old) }
    ensures { Did result p found 1 4 (changes_byte op p.text mem.old) mem.old mem.new }
{
    let Some(s) = found else {
        return p.undone();
    };
    if s.reach < 1 {
        return p.undone();
    }
    let b = fields::flat::byte_of(mem, s.at);
    let v = arithmetic::bits::logic(op, b, (p.text % 256) as u8);
    fields::flat::put_byte(mem, s.at, v);
    Turn::On(p.at + 4, arithmetic::zero_code(u32::from(v)))
}

// MVI. (Beside `bits`, which reads the byte and makes a code of it.)
pub fn put(mem: &mut [u8], p: Here, found: Option<Spot>) -> Turn
    requires { Lies found (length mem.old) }
    ensures { Did result p found 1 4 (puts_byte p.text p.code mem.old) mem.old mem.new }
{
    let Some(s) = found else {
        return p.undone();
    };
    if s.reach < 1 {
        return p.undone();
    }
    fields::flat::put_byte(mem, s.at, (p.text % 256) as u8);
    Turn::On(p.at + 4, p.code)
}

// LM.
pub fn load_many(regs: &mut [u32], mem: &[u8], p: Here, found: Option<Spot>) -> Turn
    requires { Lies found (length mem.now) }
    ensures { Did result p found (many_of p.text * 4) 4 (fills p.text p.code mem.now regs.old) regs.old regs.new }
{
    let Some(s) = found else {
        return p.undone();
    };
    let f = decode::split_rs(p.text, 0);
    let n = rs_ss::rs::how_many(f);
    if s.reach < n * 4 {
        return p.undone();
    }
    rs_ss::rs::fill_at(regs, mem, n, f.r1, s.at);
    Turn::On(p.at + 4, p.code)
}

// STM. (Not one function with LM: which of registers and memory may change stands in the types.)
pub fn store_many(regs: &[u32], mem: &mut [u8], p: Here, found: Option<Spot>) -> Turn
    requires { Lies found (length mem.old) }
    ensures { Did result p found (many_of p.text * 4) 4 (spills p.text p.code regs.now mem.old) mem.old mem.new }
{
    let Some(s) = found else {
        return p.undone();
    };
    let f = decode::split_rs(p.text, 0);
    let n = rs_ss::rs::how_many(f);
    if s.reach < n * 4 {
        return p.undone();
    }
    rs_ss::rs::spill_at(regs, mem, n, f.r1, s.at);
    Turn::On(p.at + 4, p.code)
}

// A word that was found for the pair of an even register.
fn paired(p: Here, found: Option<Spot>) -> Option<Spot>
    ensures { Paired result p found }
{
    match found {
        Some(s) if 4 <= s.reach && p.text / 16 % 2 == 0 => found,
        _ => None,
    }
}

// M. (Each of the two has one user, so that the compiler puts it into the loop.)
pub fn multiply(regs: &mut [u32], mem: &[u8], p: Here, found: Option<Spot>) -> Turn
    requires { Lies found (length mem.now) }
    ensures { PairDid result p found PairOp.Multiply p.text mem.now regs.old regs.new }
{
    let Some(s) = paired(p, found) else {
        return p.undone();
    };
    let b = fields::flat::word_of(mem, s.at);
    let r = (p.text / 16 % 16) as u8;
    let out = actions::pairs::work(regs, p.state(), PairOp::Multiply, r, b, 4);
    let Ok(n) = out else {
        return p.undone();
    };
    Turn::On(p.at + 4, n.code)
}

// D, where there is a quotient.
pub fn divide(regs: &mut [u32], mem: &[u8], p: Here, found: Option<Spot>) -> Turn
    requires { Lies found (length mem.now) }
    ensures { PairDid result p found PairOp.Divide p.text mem.now regs.old regs.new }
{
    let Some(s) = paired(p, found) else {
        return p.undone();
    };
    let b = fields::flat::word_of(mem, s.at);
    let r = (p.text / 16 % 16) as u8;
    let out = actions::pairs::work(regs, p.state(), PairOp::Divide, r, b, 4);
    let Ok(n) = out else {
        return p.undone();
    };
    Turn::On(p.at + 4, n.code)
}
