//! Slices of a diagram of a store along a path, its ends, and cones over it.
#![tactic(auto)]

mod cones;
mod degenerate;
mod made;
mod slices;

pub use cones::{cone, type_over};
pub use degenerate::identity_diagram;
pub use slices::{NoHeight, parallel, slice, source, target};
