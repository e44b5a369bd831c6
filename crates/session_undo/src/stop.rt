ghost use Rattle.std.specs.Prelude.{◌≡◌};
ghost use Rattle.session_undo.specs.declared.stop.Stop.TheVariants.{NoMemory, Refused};

use boundary_paths::NoHeight;
use std::alloc::AllocError;
use typecheck::AddRefusal;
use workspace_json::Refusal;

/// Why a command goes no further.
#[derive(Debug, Drop)]
pub(crate) enum Stop {
    Refused(Refusal),
    NoMemory,
}

impl From<AllocError> for Stop {
    ghost from_gives = { λ _ stop. stop ≡ NoMemory };

    fn from(_error: AllocError) -> Stop {
        Stop::NoMemory
    }
}

/// A step of a path that names no height.
impl From<NoHeight> for Stop {
    ghost use Rattle.workspace_json.specs.declared.refusal.Refusal.TheVariants as refusal;

    ghost from_gives = { λ fault stop. stop ≡ Refused (refusal.NoHeight fault.step) };

    fn from(fault: NoHeight) -> Stop {
        Stop::Refused(Refusal::NoHeight { step: fault.step })
    }
}

/// What a signature refuses, a command refuses.
impl From<AddRefusal> for Stop {
    ghost use Rattle.session_undo.specs.Added.{stop_of};

    ghost from_gives = { λ refusal stop. stop ≡ stop_of refusal };

    fn from(refusal: AddRefusal) -> Stop {
        match refusal {
            AddRefusal::DimDiffers => Stop::Refused(Refusal::DimDiffers),
            AddRefusal::NotParallel => Stop::Refused(Refusal::NotParallel),
            AddRefusal::DimLimit => Stop::Refused(Refusal::DimLimit),
            AddRefusal::CountLimit => Stop::Refused(Refusal::CountLimit),
            AddRefusal::IllTyped(fault) => Stop::Refused(Refusal::IllTyped(fault)),
            AddRefusal::NoMemory => Stop::NoMemory,
        }
    }
}
