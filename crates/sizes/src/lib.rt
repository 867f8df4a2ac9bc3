// The bottom layer: the limits, block and symbol numbers, the partition into blocks, object numbers, and why a call is refused.
#![tactic(auto)]

pub mod gap;
pub mod limits;
pub mod numbers;
pub mod partition;
pub mod refusal;
pub mod toiallocator;
