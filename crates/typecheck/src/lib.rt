//! Signatures, and which diagrams are well typed over them.
#![tactic(auto)]

mod laws;
mod points;
mod refusal;
mod signature;
mod verdict;

pub use laws::no_fault_is_well_typed;
pub use refusal::AddRefusal;
pub use signature::Signature;
pub use verdict::Verdict;
