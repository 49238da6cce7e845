// Lent bytes: the fields of 8-byte records, the size of a run of them, and a schedule's bits.

#![tactic(auto)]

pub mod field;
pub mod schedule;
pub mod size;
