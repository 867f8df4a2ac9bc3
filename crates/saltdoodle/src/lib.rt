// A sender that the host owns and lends.
#![tactic(auto)]

pub mod calls;
pub mod record;
