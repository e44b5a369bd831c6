//! Tests of workspaces over the store and of sessions, against worked examples.
#![tactic(auto)]

#[cfg(test)]
mod tests;
