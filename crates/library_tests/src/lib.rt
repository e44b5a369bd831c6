//! Tests of maps over the store, cones and signatures, on documents written as JSON. A test of a call
//! with conditions has to show that they hold, so the functions that read and store a document carry
//! contracts of their own.
#![tactic(auto)]

#[cfg(test)]
mod signatures;
#[cfg(test)]
mod stored;
#[cfg(test)]
mod tests;
#[cfg(test)]
mod unshared;
