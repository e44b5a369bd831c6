use super::over_new_store;
use diagram_terms::Label;
use hashcons::{DiagramId, Store};
use std::alloc::AllocError;
use std::test::Fail;
use store_fixtures::{pair_of, put_label};
use zigzag_maps::{Map, identity};

const F: Label = Label { number: 1, dim: 1 };

/// The diagram of F, its identity, and both labels of the identity's arrow.
fn identity_of_f(
    store: &mut Store,
) -> Result<(DiagramId, Map, Option<(Label, Label)>), AllocError> {
    let d = put_label(store, F)?;
    let map = identity(store.allocator(), store, d)?;
    Ok((d, map, pair_of(store, map.arrow)))
}

#[test]
fn maps_a_label_to_itself(rt: HostRuntime) -> Result<(), Fail> {
    let (f, map, labels) = over_new_store(rt.alloc(), identity_of_f)?;
    assert_eq!(rt; map.source, f);
    assert_eq!(rt; map.target, f);
    assert_eq!(rt; labels, Some((F, F)));
    Ok(())
}
