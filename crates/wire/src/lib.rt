// What goes over the wire: the packet record.
#![tactic(auto)]

pub mod record;
