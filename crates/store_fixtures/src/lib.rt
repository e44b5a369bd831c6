//! What tests over a store share: documents of nodes, what stands at a place of their ids, and labels put
//! into a store and read back.
#![tactic(auto)]

mod places;
mod reading;
mod written;

pub use places::{NotThere, arrow_at, diagram_at};
pub use reading::{label_of, pair_of, put_label, put_pair};
pub use written::document_of;
