ghost use Rattle.std.specs.Prelude.{◌≡◌, [], IfOk};
ghost use Rattle.diagram_terms.specs.Places.{further_in};

use sqlite_items::Items;
use std::alloc::{AllocError, Global};

/// A height of a diagram: a regular one or a singular one, each counted from 0.
#[derive(Clone, Copy, Debug, PartialEq, Eq)]
pub enum Height {
    R(usize),
    S(usize),
}

/// An end of a diagram.
#[derive(Clone, Copy, Debug, PartialEq, Eq)]
pub enum Side {
    Source,
    Target,
}

/// How heights that nothing orders are put in order.
#[derive(Clone, Copy, Debug, PartialEq, Eq)]
pub enum Bias {
    Unbiased,
    Earlier,
    Later,
}

/// Which degeneracies may be taken: every one, or the plain ones alone, which keep the regular slices as they are.
#[derive(Clone, Copy, Debug, PartialEq, Eq)]
pub enum Keep {
    Free,
    Plain,
}

/// One step into a diagram, an arrow or a map.
#[derive(Clone, Copy, Debug, PartialEq, Eq)]
pub enum Step {
    /// The source of a map.
    SourceEnd,
    /// The target of a map.
    TargetEnd,
    /// A regular slice, counted from 0.
    R(usize),
    /// A singular slice, counted from 0.
    S(usize),
    /// The leg forward into a singular slice, counted from 0.
    F(usize),
    /// The leg backward into a singular slice, counted from 0.
    B(usize),
}

/// What fails at the end of a place.
#[derive(Clone, Copy, Debug, PartialEq, Eq)]
pub enum End {
    /// The ends of an arrow do not fit.
    Ends,
    /// The square of an arrow at this height of its target does not commute.
    Square(usize),
}

/// Where an arrow fails: the steps to it, outermost first, and what fails there.
#[derive(Debug, Drop)]
pub struct Place {
    pub steps: Items<Step>,
    pub end: End,
}

/// Why a diagram is not well typed.
#[derive(Debug, Drop)]
pub enum Fault {
    /// The first square or end that fails.
    SquareAt(Place),
    /// The first leg that is not plain.
    LooseAt(Items<Step>),
    /// The first point whose label no generator has.
    LabelAt(Items<Height>),
    /// The first point around which the diagram is not of its generator's type.
    TypeAt(Items<Height>),
}

/// The place right here, with no step to it.
pub fn place_here(alloc: Global, end: End) -> Place
    ensures { result ≡ record { steps = []; end = end } }
{
    Place {
        steps: Items::new(alloc),
        end,
    }
}

/// The same place, seen from one step further out.
pub fn place_under(alloc: Global, step: Step, place: Place) -> Result<Place, AllocError>
    ensures { IfOk result (λ p. p ≡ further_in step place) }
{
    let Place { steps: inner, end } = place;
    let mut steps = Items::new(alloc);
    steps.push(step)?;
    steps.append(inner)?;
    Ok(Place { steps, end })
}
