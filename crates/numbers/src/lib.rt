// Numbers in 32 bits: lane counts, and what stands for a status and for a refusal.

#![tactic(auto)]

pub mod lanes;
pub mod reason;
pub mod status;
