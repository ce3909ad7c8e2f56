// Decoding: an instruction's action, from its operation code, and its fields, from its halfwords. The enums' cases are imported by their
// own names, so that a row here reads as in code/specs/Table.
#![tactic(auto)]

ghost use Rattle.std.specs.Prelude.{◌≡◌};
ghost use Rattle.code.specs.Table.{action_of};
ghost use Rattle.code.specs.Formats.{length_of, rr_of, rx_of, rs_of, si_of, ss_of};

use code::Action::*;
use code::Branch::*;
use code::Operand::*;
use code::RrAction::*;
use code::RsAction::*;
use code::RxAction::*;
use code::SiAction::*;
use code::SsAction::*;
use code::Width::*;
use code::{Action, RrFields, RsFields, RxFields, SiFields, SsFields};
use words::Alu::*;
use words::Direction::*;
use words::Logic::*;
use words::PairOp::*;

pub mod names; // names.rt: the names, by code

pub fn split_rr(h1: u16) -> RrFields
    ensures { result ≡ rr_of h1 }
{
    let r1 = (h1 / 16 % 16) as u8;
    let r2 = (h1 % 16) as u8;
    RrFields { r1, r2 }
}

// Two digits as in RR, an address as in SI.
pub fn split_rx(h1: u16, h2: u16) -> RxFields
    ensures { result ≡ rx_of h1 h2 }
{
    let RrFields { r1, r2: x2 } = split_rr(h1);
    let SiFields { b1: b2, d1: d2, .. } = split_si(h1, h2);
    RxFields { r1, x2, b2, d2 }
}

// As RX, with R3 where X2 is.
pub fn split_rs(h1: u16, h2: u16) -> RsFields
    ensures { result ≡ rs_of h1 h2 }
{
    let RxFields { r1, x2: r3, b2, d2 } = split_rx(h1, h2);
    RsFields { r1, r3, b2, d2 }
}

pub fn split_si(h1: u16, h2: u16) -> SiFields
    ensures { result ≡ si_of h1 h2 }
{
    let i2 = (h1 % 256) as u8;
    let b1 = (h2 / 4096) as u8;
    let d1 = h2 % 4096;
    SiFields { i2, b1, d1 }
}

// A byte and an address as in SI, and a second address.
pub fn split_ss(h1: u16, h2: u16, h3: u16) -> SsFields
    ensures { result ≡ ss_of h1 h2 h3 }
{
    let SiFields { i2: l, b1, d1 } = split_si(h1, h2);
    let SiFields { b1: b2, d1: d2, .. } = split_si(h1, h3);
    SsFields { l, b1, d1, b2, d2 }
}

// The table, as a match: a row for each operation; no action where no row has the code.
pub fn action_of(op: u8) -> Option<Action>
    ensures { result ≡ action_of op }
{
    match op {
        0x18 => Some(Rr(Registers(Load))), // LR
        0x58 => Some(Rx(Taking(WordWith(Load)))), // L
        0x48 => Some(Rx(Taking(HalfWith(Load)))), // LH
        0x12 => Some(Rr(Registers(Test))), // LTR
        0x13 => Some(Rr(Registers(Complement))), // LCR
        0x10 => Some(Rr(Registers(Positive))), // LPR
        0x11 => Some(Rr(Registers(Negative))), // LNR
        0x98 => Some(Rs(LoadMultiple)), // LM
        0x50 => Some(Rx(Storing(Word))), // ST
        0x40 => Some(Rx(Storing(Half))), // STH
        0x90 => Some(Rs(StoreMultiple)), // STM
        0x41 => Some(Rx(LoadAddress)), // LA
        0x43 => Some(Rx(Taking(ByteInserted))), // IC
        0x42 => Some(Rx(Storing(Byte))), // STC
        0x1A => Some(Rr(Registers(Add))), // AR
        0x5A => Some(Rx(Taking(WordWith(Add)))), // A
        0x1B => Some(Rr(Registers(Subtract))), // SR
        0x5B => Some(Rx(Taking(WordWith(Subtract)))), // S
        0x19 => Some(Rr(Registers(Compare))), // CR
        0x59 => Some(Rx(Taking(WordWith(Compare)))), // C
        0x1E => Some(Rr(Registers(AddLogical))), // ALR
        0x5E => Some(Rx(Taking(WordWith(AddLogical)))), // AL
        0x1F => Some(Rr(Registers(SubtractLogical))), // SLR
        0x5F => Some(Rx(Taking(WordWith(SubtractLogical)))), // SL
        0x15 => Some(Rr(Registers(CompareLogical))), // CLR
        0x55 => Some(Rx(Taking(WordWith(CompareLogical)))), // CL
        0x95 => Some(Si(CompareByte)), // CLI
        0xD5 => Some(Ss(CompareField)), // CLC
        0x14 => Some(Rr(Registers(Bits(And)))), // NR
        0x54 => Some(Rx(Taking(WordWith(Bits(And))))), // N
        0x94 => Some(Si(BitsByte(And))), // NI
        0x16 => Some(Rr(Registers(Bits(Or)))), // OR
        0x56 => Some(Rx(Taking(WordWith(Bits(Or))))), // O
        0x96 => Some(Si(BitsByte(Or))), // OI
        0x17 => Some(Rr(Registers(Bits(Xor)))), // XR
        0x57 => Some(Rx(Taking(WordWith(Bits(Xor))))), // X
        0x97 => Some(Si(BitsByte(Xor))), // XI
        0x91 => Some(Si(TestMask)), // TM
        0x92 => Some(Si(MoveByte)), // MVI
        0xD2 => Some(Ss(MoveField)), // MVC
        0x89 => Some(Rs(ShiftLeft)), // SLL
        0x88 => Some(Rs(ShiftRight)), // SRL
        0x07 => Some(Rr(RegisterBranch(OnCondition))), // BCR
        0x47 => Some(Rx(AddressBranch(OnCondition))), // BC
        0x05 => Some(Rr(RegisterBranch(AndLink))), // BALR
        0x45 => Some(Rx(AddressBranch(AndLink))), // BAL
        0x06 => Some(Rr(RegisterBranch(OnCount))), // BCTR
        0x46 => Some(Rx(AddressBranch(OnCount))), // BCT
        0x86 => Some(Rs(BranchHigh)), // BXH
        0x87 => Some(Rs(BranchLowEqual)), // BXLE
        0x1C => Some(Rr(PairAndRegister(Multiply))), // MR
        0x5C => Some(Rx(PairAndWord(Multiply))), // M
        0x4C => Some(Rx(Taking(HalfWith(LowProduct)))), // MH
        0x1D => Some(Rr(PairAndRegister(Divide))), // DR
        0x5D => Some(Rx(PairAndWord(Divide))), // D
        0x4A => Some(Rx(Taking(HalfWith(Add)))), // AH
        0x4B => Some(Rx(Taking(HalfWith(Subtract)))), // SH
        0x49 => Some(Rx(Taking(HalfWith(Compare)))), // CH
        0x8B => Some(Rs(ShiftSigned(Left))), // SLA
        0x8A => Some(Rs(ShiftSigned(Right))), // SRA
        0x8F => Some(Rs(ShiftDouble(Left))), // SLDA
        0x8E => Some(Rs(ShiftDouble(Right))), // SRDA
        _ => None,
    }
}

// How many bytes an instruction has.
pub fn length_of(action: Action) -> usize
    ensures { result ≡ length_of action }
{
    match action {
        Rr(_) => 2,
        Rx(_) => 4,
        Rs(_) => 4,
        Si(_) => 4,
        Ss(_) => 6,
    }
}
