ghost use Rattle.std.specs.Prelude.{OnOk};
ghost use Rattle.hashcons.specs.Contents.{IsDiagramOf};
ghost use Rattle.zigzag_maps.specs.Found.{IsValidDiagram};

use super::{over_new_store, put_diagram_of};
use diagram_terms::{Items, Step};
use hashcons::{DiagramId, Store};
use plain_maps::first_loose;
use std::alloc::Global;
use std::test::Fail;
use zigzag_maps::{SquareTest, valid};

/// The nodes of an arrow of length 0 whose one slice is x -> f, and of the diagram of which it is
/// both legs.
const LOOSE: &str =
    "{\"label\":[0,0]},{\"label\":[1,1]},{\"labels\":[[0,0],[1,1]]},{\"bwds\":[],\"fwds\":[],\"regs\":[0],\"sings\":[]},{\"bwds\":[],\"fwds\":[],\"regs\":[1],\"sings\":[]},{\"heights\":[],\"regs\":[2],\"sings\":[]},{\"bwds\":[5],\"fwds\":[5],\"regs\":[3,3],\"sings\":[4]}";

/// Fails if a diagram is not valid.
fn check_valid(alloc: Global, store: &mut Store, d: DiagramId) -> Result<(), Fail>
    requires { IsDiagramOf store.old d }
    ensures { OnOk result (IsValidDiagram store.new d) }
{
    match valid(alloc, store, d)? {
        SquareTest::Valid => Ok(()),
        SquareTest::Fault(_) => Err(Fail::from("not valid")),
    }
}

/// The first loose leg of the last of these nodes, which has to be valid.
fn loose_leg(store: &mut Store) -> Result<Option<Items<Step>>, Fail> {
    let alloc = store.allocator();
    let (_ids, d) = put_diagram_of(alloc, store, LOOSE, 6)?;
    check_valid(alloc, store, d)?;
    Ok(first_loose(alloc, store, d)?)
}

#[test]
fn names_the_first_loose_leg(rt: HostRuntime) -> Result<(), Fail> {
    let steps = over_new_store(rt.alloc(), loose_leg)?.ok_or("every leg is plain")?;
    assert_eq!(rt; steps.as_slice(), [Step::F(0)].as_slice());
    Ok(())
}
