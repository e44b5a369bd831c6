//! Tests of documents, commands, replies and paths as bytes, against worked examples.
#![tactic(auto)]

#[cfg(test)]
mod tests;
