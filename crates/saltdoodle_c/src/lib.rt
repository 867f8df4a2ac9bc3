// The calls of `saltdoodle` under the names and in the form that a host in C links.
#![tactic(auto)]

pub mod calls;
pub mod record;
