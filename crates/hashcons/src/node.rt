use crate::id::{ArrowId, DiagramId};
use diagram_terms::Label;
use smallvec::SmallVec;

/// A diagram by the ids of its slices and legs.
#[derive(Debug, Drop, PartialEq, Eq, Hash)]
pub enum DiagramNode {
    /// A diagram of dimension 0.
    Zero(Label),
    /// A diagram of length n: n + 1 regular slices, and at each height k a singular slice with the
    /// legs `fwds[k]` from the regular slice k and `bwds[k]` from the regular slice k + 1.
    Zig {
        regs: SmallVec<DiagramId, 4>,
        sings: SmallVec<DiagramId, 4>,
        fwds: SmallVec<ArrowId, 4>,
        bwds: SmallVec<ArrowId, 4>,
    },
}

/// An arrow by its heights and the ids of its slices.
#[derive(Debug, Drop, PartialEq, Eq, Hash)]
pub enum ArrowNode {
    /// An arrow of dimension 0: the label that it comes from, and the one that it goes to.
    Zero(Label, Label),
    /// Where each height of the source goes, counted from 0 in the target; a slice for each regular
    /// height of the target; a slice for each singular height of the source.
    Zig {
        heights: SmallVec<usize, 4>,
        regs: SmallVec<ArrowId, 4>,
        sings: SmallVec<ArrowId, 4>,
    },
}
