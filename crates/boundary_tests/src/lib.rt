//! Tests of slices, ends, cones and types over the store, of loose legs, and of signatures.
#![tactic(auto)]

#[cfg(test)]
mod tests;
