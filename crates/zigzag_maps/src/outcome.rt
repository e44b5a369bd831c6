use diagram_terms::Place;

/// Whether a map or a diagram is valid, and else the first place where it is not.
#[derive(Debug, Drop)]
pub enum SquareTest {
    Valid,
    Fault(Place),
}
