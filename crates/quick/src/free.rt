// Rows that touch no storage: the executors of the plain step do them. The counter that these make is not used: the next instruction lies
// behind this one.
ghost use Rattle.std.specs.Prelude.{◌+◌, ◌≤◌, length};
ghost use Rattle.code.specs.declared.RrAction.TheVariants.{Registers, PairAndRegister};
ghost use Rattle.code.specs.declared.RxAction.TheVariants.{LoadAddress};
ghost use Rattle.code.specs.declared.RsAction.TheVariants.{ShiftSigned, ShiftDouble};
ghost use Rattle.code.specs.Formats.{rr_of, rx_of, rs_of};
ghost use Rattle.fields.specs.Direct.{flat};
ghost use Rattle.machine.specs.Rr as rrs;
ghost use Rattle.machine.specs.Rx as rxs;
ghost use Rattle.machine.specs.Rs as rss;
ghost use Rattle.rs_ss.specs.Logical.{logical_shift};
ghost use Rattle.quick.specs.Turns.{Ended};

use crate::{Here, Turn};
use actions::rr;
use rs_ss::rs;
use words::{Alu, Direction, PairOp};

// LR LTR LCR LPR LNR AR SR CR ALR SLR CLR NR OR XR.
pub fn between(regs: &mut [u32], p: Here, op: Alu) -> Turn
    ensures { Ended result p (rrs.rr (Registers op) (rr_of p.text)) regs.old regs.new }
{
    let n = rr::combine(regs, p.state(), op, p.text);
    Turn::On(p.at + 2, n.code)
}

// MR DR.
pub fn pair_between(regs: &mut [u32], p: Here, op: PairOp) -> Turn
    ensures { Ended result p (rrs.rr (PairAndRegister op) (rr_of p.text)) regs.old regs.new }
{
    let out = rr::pair(regs, p.state(), op, p.text);
    let Ok(n) = out else {
        return p.undone();
    };
    Turn::On(p.at + 2, n.code)
}

// LA.
pub fn load_address(regs: &mut [u32], mem: &[u8], p: Here) -> Turn
    requires { p.at + 4 ≤ length mem.now }
    ensures { Ended result p (rxs.rx LoadAddress (rx_of p.text (flat mem.now (p.at + 2) 2 0))) regs.old regs.new }
{
    let f = decode::split_rx(p.text, fields::flat::half_of(mem, p.at + 2));
    let n = rx_si::rx::load_address(regs, p.state(), f);
    Turn::On(p.at + 4, n.code)
}

// SLL SRL.
pub fn shift_logical(regs: &mut [u32], mem: &[u8], p: Here, to: Direction) -> Turn
    requires { p.at + 4 ≤ length mem.now }
    ensures { Ended result p (rss.rs (logical_shift to) (rs_of p.text (flat mem.now (p.at + 2) 2 0))) regs.old regs.new }
{
    let f = decode::split_rs(p.text, fields::flat::half_of(mem, p.at + 2));
    let n = rs::shift_logical(regs, p.state(), to, f);
    Turn::On(p.at + 4, n.code)
}

// SLA SRA.
pub fn shift_signed(regs: &mut [u32], mem: &[u8], p: Here, to: Direction) -> Turn
    requires { p.at + 4 ≤ length mem.now }
    ensures { Ended result p (rss.rs (ShiftSigned to) (rs_of p.text (flat mem.now (p.at + 2) 2 0))) regs.old regs.new }
{
    let f = decode::split_rs(p.text, fields::flat::half_of(mem, p.at + 2));
    let n = rs::shift_signed(regs, p.state(), to, f);
    Turn::On(p.at + 4, n.code)
}

// SLDA SRDA.
pub fn shift_double(regs: &mut [u32], mem: &[u8], p: Here, to: Direction) -> Turn
    requires { p.at + 4 ≤ length mem.now }
    ensures { Ended result p (rss.rs (ShiftDouble to) (rs_of p.text (flat mem.now (p.at + 2) 2 0))) regs.old regs.new }
{
    let f = decode::split_rs(p.text, fields::flat::half_of(mem, p.at + 2));
    let out = rs::shift_double(regs, p.state(), to, f);
    let Ok(n) = out else {
        return p.undone();
    };
    Turn::On(p.at + 4, n.code)
}
