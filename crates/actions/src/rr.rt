// The RR format: no storage. The fields are split where they are used: a struct of two bytes that is handed on is carried as one number.
ghost use Rattle.std.specs.Prelude.{◌≡◌};
ghost use Rattle.machine.specs.Prog.{done};
ghost use Rattle.code.specs.Formats.{rr_of};
ghost use Rattle.machine.specs.Rr.{rr};
ghost use Rattle.actions.specs.Answered.{cpu_of, AnswersTo};

use crate::{Now, Stop, branches, pairs, registers};
use code::{Branch, RrAction};
use words::{Alu, PairOp};

pub fn combine(regs: &mut [u32], c: Now, op: Alu, h1: u16) -> Now
    ensures { done (cpu_of regs.new result) ≡ rr (RrAction.Registers op) (rr_of h1) (cpu_of regs.old c) }
{
    let f = decode::split_rr(h1);
    let a = registers::reg(regs, f.r1);
    let b = registers::reg(regs, f.r2);
    let result = arithmetic::combine(op, a, b, c.code);
    let next = registers::ahead_of(regs, c, 2);
    registers::put_reg(regs, f.r1, result.value);
    Now {
        pc: next,
        code: result.code,
        ..c
    }
}

fn branch(regs: &mut [u32], c: Now, kind: Branch, h1: u16) -> Now
    ensures { done (cpu_of regs.new result) ≡ rr (RrAction.RegisterBranch kind) (rr_of h1) (cpu_of regs.old c) }
{
    let f = decode::split_rr(h1);
    let to = registers::reg(regs, f.r2) % 16777216;
    branches::take(regs, c, kind, 2, f.r1, to, 0 < f.r2)
}

// MR DR.
pub fn pair(regs: &mut [u32], c: Now, op: PairOp, h1: u16) -> Result<Now, Stop>
    ensures { AnswersTo result regs.old regs.new (rr (RrAction.PairAndRegister op) (rr_of h1) (cpu_of regs.old c)) }
{
    let f = decode::split_rr(h1);
    if f.r1 % 2 != 0 {
        return Err(Stop::Boundary(c.pc));
    }
    pairs::work(regs, c, op, f.r1, registers::reg(regs, f.r2), 2)
}

pub fn execute(regs: &mut [u32], c: Now, x: RrAction, h1: u16) -> Result<Now, Stop>
    ensures { AnswersTo result regs.old regs.new (rr x (rr_of h1) (cpu_of regs.old c)) }
{
    match x {
        RrAction::Registers(op) => Ok(combine(regs, c, op, h1)),
        RrAction::RegisterBranch(kind) => Ok(branch(regs, c, kind, h1)),
        RrAction::PairAndRegister(op) => pair(regs, c, op, h1),
    }
}
