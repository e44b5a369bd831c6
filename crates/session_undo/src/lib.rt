//! Sessions: a workspace that commands change and read, with undo and redo.
#![tactic(auto)]

mod commands;
mod diagrams;
mod dropping;
mod generators;
mod lookups;
mod maps;
mod normal_forms;
mod reading;
mod session;
mod stop;
mod storing;
mod turning;

pub use maps::first_bad_place;
pub use session::{NothingToRedo, NothingToUndo, Session};
pub use workspace_lists::{Generator, Named, NamedMap, Stats, Workspace};
