//! Normal forms over the store: the least degeneracy into a diagram for some legs into it.
#![tactic(auto)]

mod assembly;
mod factors;
mod forms;
mod keys;
mod known;
mod left;
mod level;
mod normal;
mod parts;
mod slices;
mod ways;

pub use normal::{Normal, normalise};
