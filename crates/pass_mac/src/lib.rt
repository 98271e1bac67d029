//! Computes HMAC-SHA-256, derived keys, and the chain of signatures of a macaroon. The functions in
//! this crate allocate no memory and never fail.
#![tactic(auto)]

mod chain;
pub mod laws;
mod mac;

pub use chain::Chain;
pub use mac::{derive, hmac, same};
