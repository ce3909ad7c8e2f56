// Branches.
ghost use Rattle.std.specs.Prelude.{◌≡◌};
ghost use Rattle.machine.specs.Cpu.{with_pc};
ghost use Rattle.machine.specs.Branches.{chosen, link, less_one, going, branch};
ghost use Rattle.actions.specs.Answered.{cpu_of};

use crate::{Now, registers};
use code::Branch;

// Whether the mask has the bit for this code.
pub fn is_chosen(mask: u8, code: u32) -> bool
    ensures { result ≡ chosen mask code }
{
    match code {
        0 => mask / 8 % 2 == 1,
        1 => mask / 4 % 2 == 1,
        2 => mask / 2 % 2 == 1,
        _ => mask % 2 == 1,
    }
}

// Length code, condition code, mask, next address.
pub fn link_word(regs: &[u32], c: Now, len: u32) -> u32
    ensures { result ≡ link (cpu_of regs.now c) len }
{
    let next = registers::ahead_of(regs, c, len);
    let high = u64::from(len / 2) * 1073741824 + u64::from(c.code) * 268435456;
    ((high + u64::from(c.mask) * 16777216 + u64::from(next)) % 4294967296) as u32
}

pub fn less_one(v: u32) -> u32
    ensures { result ≡ less_one v }
{
    v.wrapping_sub(1)
}

// The scalars with the counter at `to` where the branch goes, else at `next`.
pub fn go(regs: &[u32], c: Now, goes: bool, to: u32, next: u32) -> Now
    ensures { cpu_of regs.now result ≡ going goes to (with_pc (cpu_of regs.now c) next) }
{
    Now {
        pc: if goes { to } else { next },
        ..c
    }
}

fn on_condition(regs: &[u32], c: Now, len: u32, r: u8, to: u32, may: bool) -> Now
    ensures { cpu_of regs.now result ≡ branch Branch.OnCondition len r to may (cpu_of regs.now c) }
{
    let next = registers::ahead_of(regs, c, len);
    go(regs, c, may && is_chosen(r, c.code), to, next)
}

fn and_link(regs: &mut [u32], c: Now, len: u32, r: u8, to: u32, may: bool) -> Now
    ensures { cpu_of regs.new result ≡ branch Branch.AndLink len r to may (cpu_of regs.old c) }
{
    let next = registers::ahead_of(regs, c, len);
    let word = link_word(regs, c, len);
    registers::put_reg(regs, r, word);
    go(regs, c, may, to, next)
}

fn on_count(regs: &mut [u32], c: Now, len: u32, r: u8, to: u32, may: bool) -> Now
    ensures { cpu_of regs.new result ≡ branch Branch.OnCount len r to may (cpu_of regs.old c) }
{
    let next = registers::ahead_of(regs, c, len);
    let count = less_one(registers::reg(regs, r));
    registers::put_reg(regs, r, count);
    go(regs, c, may && 0 < count, to, next)
}

// `to` and `may` as the definition has them: the address, and whether a branch may go there at all (machine/specs/Branches).
pub fn take(regs: &mut [u32], c: Now, kind: Branch, len: u32, r: u8, to: u32, may: bool) -> Now
    ensures { cpu_of regs.new result ≡ branch kind len r to may (cpu_of regs.old c) }
{
    match kind {
        Branch::OnCondition => on_condition(regs, c, len, r, to, may),
        Branch::AndLink => and_link(regs, c, len, r, to, may),
        Branch::OnCount => on_count(regs, c, len, r, to, may),
    }
}
