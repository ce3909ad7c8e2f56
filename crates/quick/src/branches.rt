// Rows that branch. Whether the counter is odd, or has left the window, is asked only where a branch goes.
ghost use Rattle.std.specs.Prelude.{◌≡◌, Bool, true, false, ◌+◌, ◌≤◌, ◌%◌, length, get_or};
ghost use Rattle.words.specs.Pick.{pick};
ghost use Rattle.code.specs.declared.Branch.TheVariants.{OnCondition, AndLink, OnCount};
ghost use Rattle.code.specs.declared.RsAction.TheVariants.{BranchHigh, BranchLowEqual};
ghost use Rattle.code.specs.Formats.{left_of, right_of, rs_of};
ghost use Rattle.fields.specs.Direct.{flat};
ghost use Rattle.machine.specs.Prog.{done};
ghost use Rattle.machine.specs.Branches as def;
ghost use Rattle.machine.specs.Rs as rss;
ghost use Rattle.quick.specs.Turns.{Ended, Gone};

use crate::{Here, Turn, Window, places};
use actions::{branches, registers};
use rs_ss::rs;

// To an address: a place in the window, if it is even and lies there.
fn go(w: Window, to: u32, code: u32) -> Turn
    requires { w.base + w.len ≤ 9223372036854775807 }
    ensures { Gone result w to code }
{
    if to % 2 == 0 {
        if w.first <= to {
            if to - w.first < w.len {
                return Turn::On(w.base + (to - w.first) as usize, code);
            }
        }
    }
    Turn::Away(to, code)
}

// The address in R2.
pub fn target(regs: &[u32], h1: u16) -> u32
    ensures { result ≡ get_or regs.now (right_of h1) 0 % 16777216 }
{
    registers::reg(regs, (h1 % 16) as u8) % 16777216
}

// BCR BC.
pub fn condition(regs: &[u32], p: Here, len: u32, to: u32, may: bool) -> Turn
    requires { (len ≤ 6) × (len % 2 ≡ 0) }
    ensures { Ended result p (λ c. done (def.branch OnCondition len (left_of p.text) to may c)) regs.now regs.now }
{
    if may {
        if branches::is_chosen((p.text / 16 % 16) as u8, p.code) {
            return go(p.window, to, p.code);
        }
        return Turn::On(p.at + len as usize, p.code);
    }
    Turn::On(p.at + len as usize, p.code)
}

// BALR BAL.
pub fn link(regs: &mut [u32], p: Here, len: u32, to: u32, may: bool) -> Turn
    requires { (len ≤ 6) × (len % 2 ≡ 0) }
    ensures { Ended result p (λ c. done (def.branch AndLink len (left_of p.text) to may c)) regs.old regs.new }
{
    let word = branches::link_word(regs, p.state(), len);
    registers::put_reg(regs, (p.text / 16 % 16) as u8, word);
    if may {
        return go(p.window, to, p.code);
    }
    Turn::On(p.at + len as usize, p.code)
}

// BCTR BCT.
pub fn count(regs: &mut [u32], p: Here, len: u32, to: u32, may: bool) -> Turn
    requires { (len ≤ 6) × (len % 2 ≡ 0) }
    ensures { Ended result p (λ c. done (def.branch OnCount len (left_of p.text) to may c)) regs.old regs.new }
{
    let r = (p.text / 16 % 16) as u8;
    let v = branches::less_one(registers::reg(regs, r));
    registers::put_reg(regs, r, v);
    if may {
        if 0 < v {
            return go(p.window, to, p.code);
        }
        return Turn::On(p.at + len as usize, p.code);
    }
    Turn::On(p.at + len as usize, p.code)
}

// BXH where `high`, else BXLE.
pub fn index(regs: &mut [u32], mem: &[u8], p: Here, high: bool) -> Turn
    requires { (length regs.old ≡ 16) × (p.at + 4 ≤ length mem.now) }
    ensures { Ended result p (rss.rs (pick high BranchHigh BranchLowEqual) (rs_of p.text (flat mem.now (p.at + 2) 2 0))) regs.old regs.new }
{
    let to = places::address(regs, mem, 0, p.at + 2);
    let f = decode::split_rs(p.text, fields::flat::half_of(mem, p.at + 2));
    let c = p.state();
    let sum = rs::index_sum(regs, c, f);
    let is = rs::is_high(regs, c, f, sum);
    registers::put_reg(regs, f.r1, sum);
    if is == high {
        return go(p.window, to, p.code);
    }
    Turn::On(p.at + 4, p.code)
}
