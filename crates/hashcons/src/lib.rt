//! The interned store of diagrams and arrows: each tree once, under one id.
#![tactic(auto)]

mod completion;
mod fill;
mod id;
mod laws;
mod list;
mod node;
mod notes;
mod noting;
mod read;
mod storage;
mod store;
mod tables;
mod view;

pub use id::{AnyId, ArrowId, DiagramId};
pub use laws::lists_each_once;
pub use node::{ArrowNode, DiagramNode};
pub use notes::{KnownNormal, NormalKey};
pub use read::same;
pub use storage::Storage;
pub use store::Store;
