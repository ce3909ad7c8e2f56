// What multiply and divide do once their second operand is in hand.
ghost use Rattle.words.specs.Wide.{pair_of};
ghost use Rattle.machine.specs.Pairs.{pair, into_pair};
ghost use Rattle.actions.specs.Answered.{cpu_of, AnswersTo};

use crate::{Now, Stop, registers};
use words::PairOp;

// The pair r with the word b, in an instruction of so many bytes: its double word goes to the pair, or 8 at the program counter.
pub fn work(regs: &mut [u32], c: Now, op: PairOp, r: u8, b: u32, len: u32) -> Result<Now, Stop>
    ensures { AnswersTo result regs.old regs.new (into_pair (pair_of op (pair (cpu_of regs.old c) r) b) len r (cpu_of regs.old c)) }
{
    let Ok(v) = arithmetic::wide::pair(op, registers::pair_of(regs, c, r), b) else {
        return Err(Stop::Divide(c.pc));
    };
    let next = registers::ahead_of(regs, c, len);
    registers::put_pair(regs, r, v);
    Ok(Now { pc: next, ..c })
}
