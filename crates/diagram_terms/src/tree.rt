use crate::label::Label;

/// A finite tree: a label, or a zigzag of cospans of diagrams one dimension lower.
///
/// A contract reads it as `tree_of_diagram`, of the definitions of trees.
#[derive(Debug, Drop)]
pub enum Diagram {
    /// A diagram of dimension 0.
    Zero(Label),
    /// A diagram of length n: n + 1 regular slices, and at each height k a singular slice with the
    /// legs `fwds[k]` from the regular slice k and `bwds[k]` from the regular slice k + 1.
    Zig {
        regs: Vec<Diagram>,
        sings: Vec<Diagram>,
        fwds: Vec<Arrow>,
        bwds: Vec<Arrow>,
    },
}

/// A map between two diagrams of one dimension, as a finite tree. Its ends are no part of it.
///
/// A contract reads it as `tree_of_arrow`, of the definitions of trees.
#[derive(Debug, Drop)]
pub enum Arrow {
    /// An arrow of dimension 0: the label that it comes from, and the one that it goes to.
    Zero(Label, Label),
    /// Where each height of the source goes, counted from 0 in the target; a slice for each regular
    /// height of the target; a slice for each singular height of the source.
    Zig {
        heights: Vec<usize>,
        regs: Vec<Arrow>,
        sings: Vec<Arrow>,
    },
}
