//! Tests of labels, heights and plain trees, of the store, and of identities over it.
#![tactic(auto)]

#[cfg(test)]
mod tests;
