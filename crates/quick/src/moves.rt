// MVC and CLC. Both fields whole in their pages, or over an edge by the stretches of fields::spans, which sets the marks of the pages that
// the fields go on into.
ghost use Rattle.std.specs.Prelude.{suc, ◌+◌, ◌≤◌, length};
ghost use Rattle.code.specs.Formats.{byte_of};
ghost use Rattle.quick.specs.Turns.{address_at, now_of, Sized, Moved, Compared};

use crate::{Here, Turn, places};
use pages::Access;

pub fn moves(regs: &[u32], mem: &mut [u8], map: &mut [u16], p: Here) -> Turn
    requires { Sized regs.now map.old × (p.at + 6 ≤ length mem.old) }
    ensures { Moved result p (address_at regs.now (now_of p) mem.old 0 (p.at + 2)) (address_at regs.now (now_of p) mem.old 0 (p.at + 4)) (suc (byte_of p.text)) mem.old map.old mem.new map.new }
{
    let to = places::address(regs, mem, 0, p.at + 2);
    let from = places::address(regs, mem, 0, p.at + 4);
    let Some(there) = lookup::look_marked(map, mem.len(), Access::Store, to) else {
        return p.undone();
    };
    let Some(here) = lookup::look_marked(map, mem.len(), Access::Load, from) else {
        return p.undone();
    };
    let n = (p.text % 256) as u32 + 1;
    if n <= there.reach && n <= here.reach {
        fields::blocks::move_flat(mem, there.at, here.at, n);
        return Turn::On(p.at + 6, p.code);
    }
    match fields::spans::move_over(mem, map, to, from, n, there, here) {
        Ok(_) => Turn::On(p.at + 6, p.code),
        Err(_) => p.undone(),
    }
}

// (Its own function: a compare is lent memory to read. The lengths are cast: with `from` the answers did not close.)
pub fn compares(regs: &[u32], mem: &[u8], map: &mut [u16], p: Here) -> Turn
    requires { Sized regs.now map.old × (p.at + 6 ≤ length mem.now) }
    ensures { Compared result p (address_at regs.now (now_of p) mem.now 0 (p.at + 2)) (address_at regs.now (now_of p) mem.now 0 (p.at + 4)) (suc (byte_of p.text)) mem.now map.old map.new }
{
    let first = places::address(regs, mem, 0, p.at + 2);
    let second = places::address(regs, mem, 0, p.at + 4);
    let Some(one) = lookup::look_marked(map, mem.len(), Access::Load, first) else {
        return p.undone();
    };
    let Some(other) = lookup::look_marked(map, mem.len(), Access::Load, second) else {
        return p.undone();
    };
    let n = (p.text % 256) as u32 + 1;
    if n <= one.reach && n <= other.reach {
        let k = fields::blocks::compare_flat(mem, one.at, other.at, n);
        return Turn::On(p.at + 6, k);
    }
    match fields::spans::compare_over(mem, map, first, second, n, one, other) {
        Ok(k) => Turn::On(p.at + 6, k),
        Err(_) => p.undone(),
    }
}
