//! Maps between diagrams of a store: arrows with their ends.
#![tactic(auto)]

mod commuting;
mod composites;
mod faults;
mod identities;
mod map;
mod order;
mod outcome;
mod sharing;
mod slices;
mod validity;
mod walk;

pub use composites::{compose, dual_from};
pub use faults::{found_in, squares};
pub use identities::identity;
pub use map::Map;
pub use order::next_step;
pub use outcome::SquareTest;
pub use slices::{bwd_map, dual_of, fwd_map, reg_slice, sing_slice};
pub use validity::valid;
pub use walk::{Held, Reading, Walk, first_in};
