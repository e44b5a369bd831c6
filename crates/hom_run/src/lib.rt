//! All that the program `hom` does on its words: `run`, with its modes `look`, `slice`, `normalise` and
//! `replay`.
#![tactic(auto)]

mod answer;
mod look;
mod nodes;
mod normal;
mod program;
mod replay;
mod slice;
mod status;
mod words;
mod writing;

pub use program::run;
pub use status::Status;
