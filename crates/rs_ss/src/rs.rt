// The RS format: registers R1 to R3, and an address.
ghost use Rattle.std.specs.Prelude.{◌≡◌, ◌≤◌, ◌+◌, ◌*◌, ◌%◌, length};
ghost use Rattle.words.specs.Pick.{pick};
ghost use Rattle.pages.specs.declared.Access.TheVariants.{Load, Store};
ghost use Rattle.pages.specs.Framed.{framed_of};
ghost use Rattle.machine.specs.Prog.{done};
ghost use Rattle.machine.specs.Rs.{rs, rs_address, how_many, next_reg, index_sum, is_high};
ghost use Rattle.fields.specs.Direct.{Clear};
ghost use Rattle.rs_ss.specs.Logical.{logical_shift, shifted};
ghost use Rattle.rs_ss.specs.Multiple.{filled, spilled, filled_at, spilled_at};
ghost use Rattle.actions.specs.Answered.{cpu_of, told, doing, AnswersTo};

use actions::{Now, Stop, branches, registers};
use code::{RsAction, RsFields};
use pages::Access;
use words::Direction;

fn operand_address(regs: &[u32], c: Now, f: RsFields) -> u32
    ensures { result ≡ rs_address f (cpu_of regs.now c) }
{
    registers::address_of(regs, c, 0, f.b2, f.d2)
}

// The number of registers from R1 to R3, wrapping 15 to 0.
pub fn how_many(f: RsFields) -> u32
    ensures { (result ≡ how_many f) × (result ≤ 16) }
{
    (u32::from(f.r3) + 16).saturating_sub(u32::from(f.r1)) % 16 + 1
}

fn next_reg(r: u8) -> u8
    ensures { result ≡ next_reg r }
{
    ((u32::from(r) + 1) % 16) as u8
}

// The register so many places on.
fn reg_past(r: u8, n: u32) -> u8
    ensures { result ≡ (r + n) % 16 }
{
    ((u64::from(r) + u64::from(n)) % 16) as u8
}

// By real address, word by word: as many words as a look-up reached.
pub fn fill_at(regs: &mut [u32], mem: &[u8], count: u32, first: u8, at: usize)
    requires { at + count * 4 ≤ length mem.now }
    ensures { regs.new ≡ filled_at mem.now count first at regs.old }
{
    let mut r = first;
    let mut a = at;
    for _ in 0..count {
        registers::put_reg(regs, r, fields::flat::word_of(mem, a));
        r = next_reg(r);
        a += 4;
    }
}

pub fn spill_at(regs: &[u32], mem: &mut [u8], count: u32, first: u8, at: usize)
    requires { at + count * 4 ≤ length mem.old }
    ensures { mem.new ≡ spilled_at regs.now count first at mem.old }
{
    let mut r = first;
    let mut a = at;
    for _ in 0..count {
        fields::flat::put_word(mem, a, registers::reg(regs, r));
        r = next_reg(r);
        a += 4;
    }
}

// Piece by piece, as many words at a time as the look-up reaches: a field over the edge of a page, every byte of which was found.
fn fill(regs: &mut [u32], mem: &[u8], map: &[u16], count: u32, first: u8, at: u32)
    requires { (at % 4 ≡ 0) × Clear map.now (length mem.now) Load at (count * 4) }
    ensures { regs.new ≡ filled (framed_of mem.now map.now) count first at regs.old }
{
    let mut r = first;
    let mut a = at;
    let mut left = count;
    // No `for`: a look-up says how many words lie together.
    while 0 < left {
        let Ok(found) = lookup::look_up(map, mem.len(), Access::Load, a) else {
            return; // never: no byte is refused
        };
        let n = lookup::fewer_of(left, (found.reach / 4) as usize);
        fill_at(regs, mem, n, r, found.at);
        r = reg_past(r, n);
        a = lookup::past_of(a, n * 4);
        left -= n;
    }
}

// The same for STM; each page that is stored to gets its mark.
fn spill(regs: &[u32], mem: &mut [u8], map: &mut [u16], count: u32, first: u8, at: u32)
    requires { (at % 4 ≡ 0) × Clear map.old (length mem.old) Store at (count * 4) }
    ensures { framed_of mem.new map.new ≡ spilled regs.now count first at (framed_of mem.old map.old) }
{
    let mut r = first;
    let mut a = at;
    let mut left = count;
    // No `for`: a look-up says how many words lie together.
    while 0 < left {
        let Ok(found) = lookup::look_up(map, mem.len(), Access::Store, a) else {
            return; // never: no byte is refused
        };
        let n = lookup::fewer_of(left, (found.reach / 4) as usize);
        spill_at(regs, mem, n, r, found.at);
        lookup::note_written(map, a);
        r = reg_past(r, n);
        a = lookup::past_of(a, n * 4);
        left -= n;
    }
}

// LM. (Not one function with STM: which of registers and memory may change stands in the types.)
fn load_multiple(
    regs: &mut [u32],
    mem: &[u8],
    map: &mut [u16],
    c: Now,
    f: RsFields,
) -> Result<Now, Stop>
    ensures { told result regs.new c (framed_of mem.now map.new) ≡ doing (rs RsAction.LoadMultiple f) regs.old c (framed_of mem.now map.old) }
{
    let at = operand_address(regs, c, f);
    if at % 4 != 0 {
        return Err(Stop::Boundary(at));
    }
    let count = how_many(f);
    let found = fields::look_one(map, mem.len(), Access::Load, at, count * 4)?;
    fields::note_field(map, at, count * 4);
    let next = registers::ahead_of(regs, c, 4);
    if count * 4 <= found.reach {
        fill_at(regs, mem, count, f.r1, found.at);
    } else {
        fill(regs, mem, map, count, f.r1, at);
    }
    Ok(Now { pc: next, ..c })
}

// STM.
fn store_multiple(
    regs: &[u32],
    mem: &mut [u8],
    map: &mut [u16],
    c: Now,
    f: RsFields,
) -> Result<Now, Stop>
    ensures { told result regs.now c (framed_of mem.new map.new) ≡ doing (rs RsAction.StoreMultiple f) regs.now c (framed_of mem.old map.old) }
{
    let at = operand_address(regs, c, f);
    if at % 4 != 0 {
        return Err(Stop::Boundary(at));
    }
    let count = how_many(f);
    let found = fields::look_one(map, mem.len(), Access::Store, at, count * 4)?;
    fields::note_field(map, at, count * 4);
    let next = registers::ahead_of(regs, c, 4);
    if count * 4 <= found.reach {
        spill_at(regs, mem, count, f.r1, found.at);
        lookup::note_written(map, at);
    } else {
        spill(regs, mem, map, count, f.r1, at);
    }
    Ok(Now { pc: next, ..c })
}

// A word shifted, with no sign.
fn shifted(to: Direction, word: u32, amount: u32) -> u32
    ensures { result ≡ shifted to word amount }
{
    match to {
        Direction::Left => arithmetic::shift_left(word, amount),
        Direction::Right => arithmetic::shift_right(word, amount),
    }
}

// SLL SRL.
pub fn shift_logical(regs: &mut [u32], c: Now, to: Direction, f: RsFields) -> Now
    ensures { done (cpu_of regs.new result) ≡ rs (logical_shift to) f (cpu_of regs.old c) }
{
    let amount = operand_address(regs, c, f);
    let v = shifted(to, registers::reg(regs, f.r1), amount);
    let next = registers::ahead_of(regs, c, 4);
    registers::put_reg(regs, f.r1, v);
    Now { pc: next, ..c }
}

// R1 + R3 in 32 bits.
pub fn index_sum(regs: &[u32], c: Now, f: RsFields) -> u32
    ensures { result ≡ index_sum f (cpu_of regs.now c) }
{
    let a = registers::reg(regs, f.r1);
    let b = registers::reg(regs, f.r3);
    a.wrapping_add(b)
}

// Whether the sum is above R3 when R3 is odd, else above R3 + 1.
pub fn is_high(regs: &[u32], c: Now, f: RsFields, sum: u32) -> bool
    requires { sum ≡ index_sum f (cpu_of regs.now c) }
    ensures { result ≡ is_high f (cpu_of regs.now c) }
{
    let other = registers::reg(regs, f.r3 / 2 * 2 + 1);
    arithmetic::high(sum, other)
}

// BXH where `high`, else BXLE.
fn branch_index(regs: &mut [u32], c: Now, high: bool, f: RsFields) -> Now
    ensures { done (cpu_of regs.new result) ≡ rs (pick high RsAction.BranchHigh RsAction.BranchLowEqual) f (cpu_of regs.old c) }
{
    let to = operand_address(regs, c, f);
    let next = registers::ahead_of(regs, c, 4);
    let sum = index_sum(regs, c, f);
    let is = is_high(regs, c, f, sum);
    registers::put_reg(regs, f.r1, sum);
    branches::go(regs, c, is == high, to, next)
}

// SLA SRA.
pub fn shift_signed(regs: &mut [u32], c: Now, to: Direction, f: RsFields) -> Now
    ensures { done (cpu_of regs.new result) ≡ rs (RsAction.ShiftSigned to) f (cpu_of regs.old c) }
{
    let amount = operand_address(regs, c, f);
    let result = arithmetic::shifts::word(to, registers::reg(regs, f.r1), amount);
    let next = registers::ahead_of(regs, c, 4);
    registers::put_reg(regs, f.r1, result.value);
    Now {
        pc: next,
        code: result.code,
        ..c
    }
}

// SLDA SRDA.
pub fn shift_double(regs: &mut [u32], c: Now, to: Direction, f: RsFields) -> Result<Now, Stop>
    ensures { AnswersTo result regs.old regs.new (rs (RsAction.ShiftDouble to) f (cpu_of regs.old c)) }
{
    if f.r1 % 2 != 0 {
        return Err(Stop::Boundary(c.pc));
    }
    let amount = operand_address(regs, c, f);
    let result = arithmetic::shifts::double(to, registers::pair_of(regs, c, f.r1), amount);
    let next = registers::ahead_of(regs, c, 4);
    registers::put_pair(regs, f.r1, result.value);
    Ok(Now {
        pc: next,
        code: result.code,
        ..c
    })
}

pub fn execute(
    regs: &mut [u32],
    mem: &mut [u8],
    map: &mut [u16],
    c: Now,
    x: RsAction,
    f: RsFields,
) -> Result<Now, Stop>
    ensures { told result regs.new c (framed_of mem.new map.new) ≡ doing (rs x f) regs.old c (framed_of mem.old map.old) }
{
    match x {
        RsAction::LoadMultiple => load_multiple(regs, mem, map, c, f),
        RsAction::StoreMultiple => store_multiple(regs, mem, map, c, f),
        RsAction::ShiftLeft => Ok(shift_logical(regs, c, Direction::Left, f)),
        RsAction::ShiftRight => Ok(shift_logical(regs, c, Direction::Right, f)),
        RsAction::BranchHigh => Ok(branch_index(regs, c, true, f)),
        RsAction::BranchLowEqual => Ok(branch_index(regs, c, false, f)),
        RsAction::ShiftSigned(to) => Ok(shift_signed(regs, c, to, f)),
        RsAction::ShiftDouble(to) => shift_double(regs, c, to, f),
    }
}
