// Registers, and the addresses that are made of them.
ghost use Rattle.std.specs.Prelude.{◌≡◌, ◌+◌, ◌/◌, ◌%◌, get_or, set};
ghost use Rattle.machine.specs.Cpu.{ahead, part, address};
ghost use Rattle.machine.specs.Pairs.{pair};
ghost use Rattle.actions.specs.Answered.{cpu_of};

use crate::Now;

fn at(regs: &[u32], k: usize) -> u32
    ensures { result ≡ get_or regs.now k 0 }
{
    regs.get(k).copied().unwrap_or(0)
}

fn put_at(regs: &mut [u32], k: usize, v: u32)
    ensures { regs.new ≡ set regs.old k v }
{
    // (By get_mut, the proof that a place past the end changes nothing didn't close.)
    if k < regs.len() {
        regs[k] = v;
    }
}

pub fn reg(regs: &[u32], i: u8) -> u32
    ensures { result ≡ get_or regs.now i 0 }
{
    at(regs, usize::from(i))
}

pub fn put_reg(regs: &mut [u32], i: u8, v: u32)
    ensures { regs.new ≡ set regs.old i v }
{
    put_at(regs, usize::from(i), v);
}

// The double word of register i and the next.
pub fn pair_of(regs: &[u32], c: Now, i: u8) -> u64
    ensures { result ≡ pair (cpu_of regs.now c) i }
{
    let k = usize::from(i);
    let left = at(regs, k);
    let right = at(regs, k + 1);
    u64::from(left) * 4294967296 + u64::from(right)
}

pub fn put_pair(regs: &mut [u32], i: u8, v: u64)
    ensures { regs.new ≡ set (set regs.old i (v / 4294967296)) (i + 1) (v % 4294967296) }
{
    let k = usize::from(i);
    put_at(regs, k, (v / 4294967296) as u32);
    put_at(regs, k + 1, (v % 4294967296) as u32);
}

// The address n bytes past the counter.
pub fn ahead_of(regs: &[u32], c: Now, n: u32) -> u32
    ensures { result ≡ ahead (cpu_of regs.now c) n }
{
    c.pc.wrapping_add(n) % 16777216
}

// A base or an index: 0 means absent.
fn part_of(regs: &[u32], c: Now, i: u8) -> u32
    ensures { result ≡ part (cpu_of regs.now c) i }
{
    if i == 0 { 0 } else { reg(regs, i) }
}

// Index, base and displacement, in 24 bits.
pub fn address_of(regs: &[u32], c: Now, x: u8, b: u8, d: u16) -> u32
    ensures { result ≡ address (cpu_of regs.now c) x b d }
{
    let index = part_of(regs, c, x);
    let base = part_of(regs, c, b);
    index.wrapping_add(base).wrapping_add(u32::from(d)) % 16777216
}
