//! Tests of degeneracies, their parts, factors through them and normal forms, on a document written as JSON. A test
//! of a call with conditions has to show that they hold, so the functions that read and store the
//! document and look for factors and parts carry contracts of their own.
#![tactic(auto)]

#[cfg(test)]
mod normals;
#[cfg(test)]
mod stored;
#[cfg(test)]
mod tests;
