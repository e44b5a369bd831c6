//! Workspaces over a store: their generators, diagrams and maps, what their names stand for, and their
//! documents and counts.
#![tactic(auto)]

mod counts;
mod names;
mod printing;
mod saved;
mod workspace;

pub use counts::Stats;
pub use names::{Meaning, Names};
pub use printing::{printed, printed_normal};
pub use saved::{document, stats};
pub use workspace::{Generator, Named, NamedMap, Workspace};
