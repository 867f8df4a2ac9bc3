// What the host names and is told: numbers and plain structs, for the enums of the calls.
#![tactic(auto)]

pub mod answers;
pub mod inputs;
