use diagram_terms::{Fault, Text};

/// Why a command or a question has no effect and no answer.
#[derive(Debug, Drop)]
pub enum Refusal {
    /// The name is no good name: it is empty or too long, or has a byte that no name has.
    NameBad,
    /// The name stands for something already.
    NameTaken,
    /// The name names nothing of the wanted kind.
    Unknown { name: Text },
    /// The source and the target of a generator have different dimensions.
    DimDiffers,
    /// The source and the target of a generator have not one source and one target.
    NotParallel,
    /// The dimension would be above the greatest.
    DimLimit,
    /// There are as many generators as there may be.
    CountLimit,
    /// The target of the first map is not the source of the other.
    EndsDiffer,
    /// The step of the path, counted from 0, names no height of its slice.
    NoHeight { step: usize },
    /// A diagram is not well typed over the generators, or a map is not valid: its first fault.
    IllTyped(Fault),
    /// No change is left to be undone.
    NothingToUndo,
    /// No undone change is left to be made again.
    NothingToRedo,
}
