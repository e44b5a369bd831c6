use hashcons::DiagramId;
use std::alloc::{AllocError, Global};
use std::collections::HashMap;
use zigzag_maps::Map;

/// The cones with one label that were made over diagrams of a store, so that no call makes one twice.
#[derive(Drop)]
pub(crate) struct MadeCones {
    cones: HashMap<DiagramId, Map>,
}

impl MadeCones {
    ghost use Rattle.std.specs.Prelude.{IfSome};
    ghost use Rattle.diagram_terms.specs.declared.label.Label.{Label};
    ghost use Rattle.hashcons.specs.Contents.{Contents};
    ghost use Rattle.boundary_paths.specs.Cones.{IsConeOf, AreCones};

    pub(crate) fn new(alloc: Global) -> MadeCones
        ensures { (c : Contents) (x : Label) → AreCones c x result }
    {
        MadeCones {
            cones: HashMap::new(alloc),
        }
    }

    /// The cone over `d`, where it was made.
    pub(crate) fn over(&self, d: DiagramId) -> Option<Map>
        ensures { (c : Contents) (x : Label) → AreCones c x self.now → IfSome result (IsConeOf c x d) }
    {
        self.cones.get(&d).copied()
    }

    pub(crate) fn keep(&mut self, cone: &Map) -> Result<(), AllocError>
        ensures { (c : Contents) (x : Label) → AreCones c x self.old
            → IsConeOf c x cone.now.source cone.now → AreCones c x self.new }
    {
        self.cones.insert(cone.source, *cone)?;
        Ok(())
    }
}
