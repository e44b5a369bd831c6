use crate::label::Label;
use sqlite_items::Items;

/// One tree of a list of trees, in which a child is named by its place: the number of an earlier
/// node, counted from 0.
#[derive(Debug, Drop)]
pub enum Node {
    /// The diagram of dimension 0 with this label.
    Label(Label),
    /// A diagram by the places of its slices and legs.
    Diagram {
        regs: Items<usize>,
        sings: Items<usize>,
        fwds: Items<usize>,
        bwds: Items<usize>,
    },
    /// The arrow of dimension 0 between these labels.
    Labels(Label, Label),
    /// An arrow by its heights, which are numbers of heights, and the places of its slices.
    Arrow {
        heights: Items<usize>,
        regs: Items<usize>,
        sings: Items<usize>,
    },
}

/// What a node stands for: a diagram or an arrow, with its dimension.
#[derive(Clone, Copy, Debug, PartialEq, Eq)]
pub enum Sort {
    Diagram(usize),
    Arrow(usize),
}
