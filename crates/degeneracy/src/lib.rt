//! Degeneracies over the store: the test, the split into parts, and factors through them.
#![tactic(auto)]

mod degeneracies;
mod degeneracy_kept;
mod factor_kept;
mod factors;
mod parts;

pub use degeneracies::is_degeneracy;
pub use factors::factor;
pub use parts::split;
