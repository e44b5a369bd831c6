use crate::level::Level;
use hashcons::{ArrowId, DiagramId};
use smallvec::SmallVec;
use std::alloc::{AllocError, Global};

/// What is left of a diagram: the heights that are kept, and at each of them the regular slice
/// before it, the singular slice with its two legs, and the arrow into the diagram's slice.
#[derive(Drop)]
pub(crate) struct Left {
    pub(crate) heights: SmallVec<usize, 4>,
    pub(crate) regs: SmallVec<DiagramId, 4>,
    pub(crate) sings: SmallVec<DiagramId, 4>,
    pub(crate) fwds: SmallVec<ArrowId, 4>,
    pub(crate) bwds: SmallVec<ArrowId, 4>,
    pub(crate) arrows: SmallVec<ArrowId, 4>,
}

impl Left {
    ghost use Rattle.std.specs.Prelude.{◌≡◌, [], OnOk};
    ghost use Rattle.normalise.specs.StoreForms.{IsEmptyLeft, IsMoreLeft};

    pub(crate) fn new(alloc: Global) -> Left
        ensures { IsEmptyLeft result }
    {
        Left {
            heights: SmallVec::new(alloc),
            regs: SmallVec::new(alloc),
            sings: SmallVec::new(alloc),
            fwds: SmallVec::new(alloc),
            bwds: SmallVec::new(alloc),
            arrows: SmallVec::new(alloc),
        }
    }

    /// The height `k`, where it is kept, with the regular slice before it.
    pub(crate) fn add(&mut self, k: usize, reg: DiagramId, level: &Level) -> Result<(), AllocError>
        ensures { OnOk result (IsMoreLeft self.old k reg level.now self.new) }
    {
        if !level.kept {
            return Ok(());
        }
        self.heights.push(k)?;
        self.regs.push(reg)?;
        self.sings.push(level.source)?;
        self.fwds.push(level.fwd)?;
        self.bwds.push(level.bwd)?;
        self.arrows.push(level.arrow)?;
        Ok(())
    }
}
