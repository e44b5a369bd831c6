//! Lists of numbers, each kept once, in blocks of which each is kept once too.
#![tactic(auto)]

mod lists;

pub use lists::{Counts, Lists};
