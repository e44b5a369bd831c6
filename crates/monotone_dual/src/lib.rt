//! Lists of heights that do not fall, their duals, their composites, and those that hit no height
//! twice.
#![tactic(auto)]

mod composite;
mod injection;
mod laws;
mod monotone;
mod refusal;

pub use composite::compose;
pub use injection::{skip, through_injection};
pub use laws::{
    dual_of_composite, dual_of_identity, fibres_are_intervals, injections_hit_every_height,
    one_factor, one_refusal, one_skip, threshold,
};
pub use monotone::Mono;
pub use refusal::{MonoRefusal, make};
