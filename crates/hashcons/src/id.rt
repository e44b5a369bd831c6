use std::marker::Model;

/// The id of a diagram in a store. Two ids of one store are equal exactly if their trees are.
#[derive(Clone, Copy, Debug, Default, PartialEq, Eq, Hash)]
pub struct DiagramId {
    pub(crate) index: usize,
}

impl Model for DiagramId {
    ghost use Rattle.std.specs.Prelude.{ℕ};

    ghost Value = { ℕ };

    ghost view = { λ d. d.index };

    ghost inverse = { λ n. record { index = n } };
}

/// The id of an arrow in a store. Two ids of one store are equal exactly if their trees are.
#[derive(Clone, Copy, Debug, Default, PartialEq, Eq, Hash)]
pub struct ArrowId {
    pub(crate) index: usize,
}

impl Model for ArrowId {
    ghost use Rattle.std.specs.Prelude.{ℕ};

    ghost Value = { ℕ };

    ghost view = { λ a. a.index };

    ghost inverse = { λ n. record { index = n } };
}

/// The id of a diagram or of an arrow.
#[derive(Clone, Copy, Debug, PartialEq, Eq, Hash)]
pub enum AnyId {
    Diagram(DiagramId),
    Arrow(ArrowId),
}

impl AnyId {
    ghost use Rattle.std.specs.Prelude.{◌≡◌, IfSome, IsSome};
    ghost use Rattle.hashcons.specs.Ids.{IsDiagramId, IsArrowId};

    /// The id as one of a diagram, if it is that.
    pub fn as_diagram(self) -> Option<DiagramId>
        ensures some { IsDiagramId self → IsSome result }
        ensures same { IfSome result (λ d. self ≡ AnyId.Diagram d) }
    {
        match self {
            AnyId::Diagram(d) => Some(d),
            AnyId::Arrow(_) => None,
        }
    }

    /// The id as one of an arrow, if it is that.
    pub fn as_arrow(self) -> Option<ArrowId>
        ensures some { IsArrowId self → IsSome result }
        ensures same { IfSome result (λ a. self ≡ AnyId.Arrow a) }
    {
        match self {
            AnyId::Diagram(_) => None,
            AnyId::Arrow(a) => Some(a),
        }
    }
}
