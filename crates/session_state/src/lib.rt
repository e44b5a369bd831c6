//! What a session keeps: a workspace over a store, its signature and its names, and the inverse changes
//! that lead back to the workspaces before it and forth to those that were undone.
#![tactic(auto)]

mod edit;
mod entries;
mod signing;
mod state;

pub use edit::Edit;
pub use entries::Entries;
pub use state::State;
