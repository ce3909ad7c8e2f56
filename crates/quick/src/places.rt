// Where an operand is: its address, and its look-up in a page that has its marks. (`Sized` stays a premise: arrays in the slices' place would
// ask more of whom calls the rows.)
ghost use Rattle.std.specs.Prelude.{◌≡◌, ◌<◌, ◌≤◌, ◌+◌, ◌%◌, eqb, length};
ghost use Rattle.actions.specs.declared.Now as scalars;
ghost use Rattle.actions.specs.Answered.{cpu_of};
ghost use Rattle.machine.specs.Cpu as def;
ghost use Rattle.quick.specs.Turns.{address_at, FieldLook, Sized};

use pages::{Access, Spot};

// A base or an index: 0 means absent.
fn part(regs: &[u32], i: u16) -> u32
    requires { (length regs.now ≡ 16) × (i < 16) }
    ensures { (c : scalars.Now) → result ≡ def.part (cpu_of regs.now c) i }
{
    if i == 0 {
        return 0;
    }
    regs[usize::from(i)]
}

// The address that the halfword at a place names, with the index register named by the right digit of x. It needs no more of the state
// than the registers.
pub fn address(regs: &[u32], mem: &[u8], x: u16, at: usize) -> u32
    requires { (length regs.now ≡ 16) × (at + 2 ≤ length mem.now) }
    ensures { (c : scalars.Now) → result ≡ address_at regs.now c mem.now x at }
{
    let h = fields::flat::half_of(mem, at);
    let index = part(regs, x % 16);
    let base = part(regs, h / 4096);
    ((u64::from(index) + u64::from(base) + u64::from(h % 4096)) % 16777216) as u32
}

// Whether an address is on a boundary of n bytes.
fn is_on(a: u32, n: u32) -> bool
    requires { 0 < n }
    ensures { result ≡ eqb (a % n) 0 }
{
    a % n == 0
}

// The look-up of the operand of an instruction at a place, on a boundary of n bytes; x is its first halfword, or 0 where the format has no
// index.
pub fn operand(
    regs: &[u32],
    mem: &[u8],
    map: &[u16],
    access: Access,
    x: u16,
    at: usize,
    n: u32,
) -> Option<Spot>
    requires { (0 < n) × Sized regs.now map.now × (at + 4 ≤ length mem.now) }
    ensures { (c : scalars.Now) → FieldLook result map.now (length mem.now) access n (address_at regs.now c mem.now x (at + 2)) }
{
    let a = address(regs, mem, x, at + 2);
    if !is_on(a, n) {
        return None;
    }
    lookup::look_marked(map, mem.len(), access, a)
}
