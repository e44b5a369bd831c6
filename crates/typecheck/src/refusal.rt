ghost use Rattle.std.specs.Prelude.{◌≡◌};
ghost use Rattle.typecheck.specs.declared.refusal.AddRefusal.TheVariants.{NoMemory};

use diagram_terms::Fault;
use std::alloc::AllocError;
use thiserror::Error;

/// Why a generator is not added.
#[derive(Debug, Drop, Error)]
pub enum AddRefusal {
    /// The source and the target have not one dimension.
    #[error("the source and the target have different dimensions")]
    DimDiffers,
    /// The source and the target are not parallel.
    #[error("the source and the target are not parallel")]
    NotParallel,
    /// The generator's dimension would be above the greatest.
    #[error("the dimension is above the limit")]
    DimLimit,
    /// There are as many generators as there may be.
    #[error("there are too many generators")]
    CountLimit,
    /// The source is not well typed, or else the target is not: its first fault.
    #[error("the source or the target is not well typed")]
    IllTyped(Fault),
    /// There was no memory.
    #[error("out of memory")]
    NoMemory,
}

impl From<AllocError> for AddRefusal {
    ghost from_gives = { λ _ refusal. refusal ≡ NoMemory };

    fn from(_error: AllocError) -> AddRefusal {
        AddRefusal::NoMemory
    }
}
