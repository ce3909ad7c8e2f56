// The executors of the formats RS, with registers from R1 to R3, and SS, with two fields of storage.
#![tactic(auto)]

pub mod plain; // plain.rt: SS byte by byte
pub mod rs;
pub mod ss;
