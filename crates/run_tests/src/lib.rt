//! Tests of whole runs: the modes on worked inputs, faults at every call, and hostile input.
#![tactic(auto)]

#[cfg(test)]
mod tests;
