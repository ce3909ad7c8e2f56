// Words: what an instruction does with one or two of them, or with a pair of registers. What that means is in specs; the crate arithmetic
// does it.
#![tactic(auto)]

// Bit by bit.
#[derive(Clone, Copy)]
pub enum Logic {
    And,
    Or,
    Xor,
}

// What an instruction does with two words.
#[derive(Clone, Copy)]
pub enum Alu {
    Load,
    Test,
    Complement,
    Positive,
    Negative,
    Add,
    Subtract,
    Compare,
    AddLogical,
    SubtractLogical,
    CompareLogical,
    Bits(Logic),
    LowProduct,
}

// A word or a double word, the condition code, and whether the true value did not fit: a flag, as the
// definitions have it (`signed_result`, `shifted_of`). With a word it has twelve bytes: not eight, as actions::Now has not.
#[derive(Clone, Copy)]
pub struct Res<T> {
    pub value: T,
    pub code: u32,
    pub over: bool,
}

// What an instruction does with the double word of a pair of registers, and a word.
#[derive(Clone, Copy)]
pub enum PairOp {
    Multiply,
    Divide,
}

// Of a division: no quotient that fits.
#[derive(Clone, Copy, Debug, PartialEq, Eq)]
pub struct DivideError;

// Where a shift goes.
#[derive(Clone, Copy)]
pub enum Direction {
    Left,
    Right,
}
