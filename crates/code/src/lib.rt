// The instruction code: actions by format, and the fields of an instruction. What they mean is in specs; the crate decode finds them.
#![tactic(auto)]

use words::{Alu, Direction, Logic, PairOp};

// What a load takes from memory, and what it does with it.
#[derive(Clone, Copy)]
pub enum Operand {
    WordWith(Alu),
    HalfWith(Alu),
    ByteInserted,
}

#[derive(Clone, Copy)]
pub enum Width {
    Word,
    Half,
    Byte,
}

#[derive(Clone, Copy)]
pub enum Branch {
    OnCondition,
    AndLink,
    OnCount,
}

#[derive(Clone, Copy)]
pub enum RrAction {
    Registers(Alu),
    RegisterBranch(Branch),
    PairAndRegister(PairOp),
}

#[derive(Clone, Copy)]
pub enum RxAction {
    Taking(Operand),
    Storing(Width),
    LoadAddress,
    AddressBranch(Branch),
    PairAndWord(PairOp),
}

#[derive(Clone, Copy)]
pub enum RsAction {
    LoadMultiple,
    StoreMultiple,
    ShiftLeft,
    ShiftRight,
    BranchHigh,
    BranchLowEqual,
    ShiftSigned(Direction),
    ShiftDouble(Direction),
}

#[derive(Clone, Copy)]
pub enum SiAction {
    CompareByte,
    TestMask,
    BitsByte(Logic),
    MoveByte,
}

#[derive(Clone, Copy)]
pub enum SsAction {
    MoveField,
    CompareField,
}

// An operation, by its format.
#[derive(Clone, Copy)]
pub enum Action {
    Rr(RrAction),
    Rx(RxAction),
    Rs(RsAction),
    Si(SiAction),
    Ss(SsAction),
}

#[derive(Clone, Copy)]
pub struct RrFields {
    pub r1: u8,
    pub r2: u8,
}

#[derive(Clone, Copy)]
pub struct RxFields {
    pub r1: u8,
    pub x2: u8,
    pub b2: u8,
    pub d2: u16,
}

#[derive(Clone, Copy)]
pub struct RsFields {
    pub r1: u8,
    pub r3: u8,
    pub b2: u8,
    pub d2: u16,
}

#[derive(Clone, Copy)]
pub struct SiFields {
    pub i2: u8,
    pub b1: u8,
    pub d1: u16,
}

#[derive(Clone, Copy)]
pub struct SsFields {
    pub l: u8,
    pub b1: u8,
    pub d1: u16,
    pub b2: u8,
    pub d2: u16,
}
