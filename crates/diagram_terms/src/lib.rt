//! Diagrams, arrows and what is said of them: the data that every crate shares, and the definitions
//! that contracts cite.
#![tactic(auto)]

mod bad_arrow;
mod bad_square;
mod compare;
mod composite;
mod dual;
mod edges;
mod label;
mod laws;
mod limits;
mod measure;
mod node;
mod place;
mod text;
mod tree;

pub use bad_square::first_bad_square;
pub use compare::equal_trees;
pub use dual::dual_from;
pub use label::Label;
pub use laws::{decoding_is_faithful, no_bad_place_is_validity, one_first_fault};
pub use limits::{GREATEST_DIM, MAX_GENERATORS, MAX_NAME_LENGTH, NUMBER_LIMIT};
pub use measure::dimension;
pub use node::{Node, Sort};
pub use place::{Bias, End, Fault, Height, Keep, Place, Side, Step, place_here, place_under};
pub use sqlite_items::Items;
pub use text::Text;
pub use tree::{Arrow, Diagram};
