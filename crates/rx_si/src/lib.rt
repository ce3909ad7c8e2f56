// The executors of the formats with one operand in storage: RX and SI. An operand that was looked up is read and stored where it was found.
#![tactic(auto)]

pub mod rx;
pub mod si;
