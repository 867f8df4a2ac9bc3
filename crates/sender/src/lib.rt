// The top layer: the encoder, the sessions, and every call from outside.
#![tactic(auto)]

pub mod block;
pub mod blockencoder;
pub mod fdtsession;
pub mod payload;
pub mod sender;
pub mod sendersession;
pub mod setup;
