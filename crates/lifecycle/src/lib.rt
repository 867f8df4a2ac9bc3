// The middle layer: the life of an object, and the FDT.
#![tactic(auto)]

pub mod announce;
pub mod fdt;
pub mod filedesc;
pub mod parts;
pub mod slots;
