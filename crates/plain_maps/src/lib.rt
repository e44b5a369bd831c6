//! Plain arrows and loose legs over a store.
#![tactic(auto)]

mod loose;
mod plain_arrows;
mod plain_kept;
mod plainness;

pub use loose::first_loose;
pub use plainness::plain;
