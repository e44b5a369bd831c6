ghost use Rattle.std.specs.Prelude.{IfOk};
ghost use Rattle.hashcons.specs.Contents.{IsArrowOf};

use super::{LOOP, over_new_store};
use hashcons::{AnyId, ArrowId, Storage, Store};
use smallvec::SmallVec;
use std::alloc::Global;
use std::test::Fail;
use store_fixtures::{diagram_at, document_of};
use zigzag_maps::identity;

/// What the store keeps when these nodes were put into it.
fn kept_of(store: &mut Store, nodes: &str) -> Result<Storage, Fail> {
    let document = document_of(store.allocator(), nodes)?;
    let _ = store.put_nodes(document.nodes.as_slice())?;
    Ok(store.storage())
}

/// What a new store keeps of these nodes.
fn kept(alloc: Global, nodes: &str) -> Result<Storage, Fail> {
    over_new_store(alloc, |store| kept_of(store, nodes))
}

/// Puts the nodes of the loop into a store, and the identity of the loop.
fn put_identity(store: &mut Store) -> Result<ArrowId, Fail>
    ensures { IfOk result (λ a. IsArrowOf store.new a) }
{
    let alloc = store.allocator();
    let document = document_of(alloc, LOOP)?;
    let ids = store.put_nodes(document.nodes.as_slice())?;
    let d = diagram_at(&ids, 3)?;
    Ok(identity(alloc, store, d)?.arrow)
}

/// What the store keeps of the loop and of its identity.
fn kept_with_identity(store: &mut Store) -> Result<Storage, Fail> {
    let _ = put_identity(store)?;
    Ok(store.storage())
}

/// Puts an arrow over diagrams of one height once more, by its own height and its own singular slice.
#[tactic(auto, using(crate::proofs::SameArrows::like_itself))]
fn put_again(store: &mut Store, a: ArrowId) -> Result<ArrowId, Fail>
    requires { IsArrowOf store.old a }
{
    if store.dim(AnyId::Arrow(a)) == 0 {
        return Err(Fail::from("the arrow has no heights"));
    }
    if store.source_len(a) != 1 {
        return Err(Fail::from("the source has another length"));
    }
    let heights = SmallVec::from_slice(store.allocator(), &[store.height(a, 0)])?;
    let sings = SmallVec::from_slice(store.allocator(), &[store.arrow_sing(a, 0)])?;
    Ok(store.put_arrow_like(a, heights, sings)?)
}

/// What the store keeps of the loop and of its identity when this is put once more, and whether it
/// has the same id then.
fn kept_again(store: &mut Store) -> Result<(Storage, bool), Fail> {
    let unit = put_identity(store)?;
    let again = put_again(store, unit)?;
    Ok((store.storage(), again == unit))
}

const SIXTEEN: &str =
    r#"{"label":[0,0]},{"label":[1,1]},{"labels":[[0,0],[1,1]]},{"bwds":[2,2,2,2,2,2,2,2,2,2,2,2,2,2,2,2],"fwds":[2,2,2,2,2,2,2,2,2,2,2,2,2,2,2,2],"regs":[0,0,0,0,0,0,0,0,0,0,0,0,0,0,0,0,0],"sings":[1,1,1,1,1,1,1,1,1,1,1,1,1,1,1,1]}"#;

#[test]
fn keeps_each_list_and_each_block_once(rt: HostRuntime) -> Result<(), Fail> {
    let alloc = rt.alloc();
    let diagrams = 3;
    let one = Storage {
        diagrams,
        arrows: 1,
        lists: 3,
        blocks: 3,
    };
    let two = Storage {
        diagrams,
        arrows: 4,
        lists: 6,
        blocks: 6,
    };
    let long = Storage {
        diagrams,
        arrows: 1,
        lists: 3,
        blocks: 4,
    };
    assert_eq!(rt; kept(alloc, LOOP)?, one);
    assert_eq!(rt; over_new_store(alloc, kept_with_identity)?, two);
    assert_eq!(rt; kept(alloc, SIXTEEN)?, long);
    assert_eq!(rt; over_new_store(alloc, kept_again)?, (two, true));
    Ok(())
}
