ghost use Rattle.std.specs.Prelude.{IsTrue, ◌↔◌};
ghost use Rattle.diagram_terms.specs.Labels.{IsAtMost};

/// The name of a cell in a diagram: its number among the generators and its dimension.
#[derive(Clone, Copy, Debug, PartialEq, Eq, Hash)]
pub struct Label {
    /// The place of the generator, counted from 0.
    pub number: u32,
    /// The dimension of the cell.
    pub dim: u8,
}

impl Label {
    /// Whether this label may stand where `other` does: it is that label, or one of smaller
    /// dimension.
    pub fn is_at_most(self, other: Label) -> bool
        ensures { IsTrue result ↔ IsAtMost self other }
    {
        self == other || self.dim < other.dim
    }
}
