ghost use Rattle.std.specs.Prelude.{◌≡◌, IfOk, IfSome};
ghost use Rattle.diagram_terms.specs.Dimension.{dimension_of};
ghost use Rattle.hashcons.specs.Contents.{IsDiagramOf, diagram_at};
ghost use Rattle.hashcons.specs.Listing.{AreOf};
ghost use Rattle.workspace_lists.specs.Held.{IsHeld};

use diagram_terms::Text;
use hashcons::{AnyId, DiagramId, Store};
use std::alloc::{AllocError, Global};
use std::test::Fail;
use store_fixtures::document_of;
use workspace_json::document_text;
use workspace_lists::{Generator, Meaning, Named, Names, Stats, Workspace, document, stats};

/// The nodes of x, f, (x, f) and x -> f <- x.
const NODES: &str =
    r#"{"label":[0,0]},{"label":[1,1]},{"labels":[[0,0],[1,1]]},{"bwds":[2],"fwds":[2],"regs":[0,0],"sings":[1]}"#;

/// What is answered over a new store. A function that has a store of its own is dear to prove, so
/// this is the only one.
fn over_new_store<R, F: FnOnce(&mut Store) -> R>(alloc: Global, answer: F) -> R
    requires { F.IsAlwaysCallable answer }
{
    let mut store = Store::new(alloc);
    answer(&mut store)
}

/// The ids of these nodes.
fn put(store: &mut Store) -> Result<Vec<AnyId>, Fail>
    ensures { IfOk result (λ ids. AreOf store.new ids.items) }
{
    let document = document_of(store.allocator(), NODES)?;
    Ok(store.put_nodes(document.nodes.as_slice())?)
}

/// The diagram at a place of ids of a store, if it is one of this dimension.
#[tactic(auto, using(workspace_lists::proofs::ForCallers::diagram_found))]
fn diagram_in(store: &Store, ids: &[AnyId], at: usize, dim: usize) -> Option<DiagramId>
    requires { AreOf store.now ids.now }
    ensures of_store { IfSome result (λ d. IsDiagramOf store.now d) }
    ensures dim { IfSome result (λ d. dimension_of (diagram_at store.now d) ≡ dim) }
{
    match ids.get(at) {
        Some(AnyId::Diagram(d)) => {
            let d = *d;
            if store.dim(AnyId::Diagram(d)) == dim {
                Some(d)
            } else {
                None
            }
        }
        _ => None,
    }
}

fn text(alloc: Global, name: &str) -> Result<Text, AllocError> {
    Ok(Text::from_string(String::from_str(alloc, name)?))
}

/// The generators x and f from x to x, and the stored diagram d.
fn sample(alloc: Global, store: &Store, x: DiagramId, d: DiagramId) -> Result<Workspace, AllocError>
    requires point { IsDiagramOf store.now x }
    requires dim { dimension_of (diagram_at store.now x) ≡ 0 }
    requires diagram { IsDiagramOf store.now d }
    ensures { IfOk result (λ w. IsHeld store.now w) }
{
    let mut generators = Vec::new(alloc);
    let name = text(alloc, "x")?;
    let boundary = None;
    generators.push(Generator {
        name,
        dim: 0,
        boundary,
    })?;
    let name = text(alloc, "f")?;
    let boundary = Some((x, x));
    generators.push(Generator {
        name,
        dim: 1,
        boundary,
    })?;
    let mut diagrams = Vec::new(alloc);
    let name = text(alloc, "d")?;
    diagrams.push(Named { name, root: d })?;
    Ok(Workspace {
        generators,
        diagrams,
        maps: Vec::new(alloc),
    })
}

#[test]
fn names_take_meanings(rt: HostRuntime) -> Result<(), Fail> {
    let x = DiagramId::default();
    let mut names = Names::new(rt.alloc());
    assert_eq!(rt; names.meaning("x"), Meaning::Free);
    names.make_place("x")?;
    names.make_place("f")?;
    assert_eq!(rt; names.meaning("x"), Meaning::Free);
    assert_eq!(rt; names.replace("x", Meaning::Generator(x)), Meaning::Free);
    names.make_place("x")?;
    assert_eq!(rt; names.meaning("x"), Meaning::Generator(x));
    assert_eq!(rt;
        names.replace("x", Meaning::Diagram(x)),
        Meaning::Generator(x)
    );
    assert_eq!(rt; names.meaning("x"), Meaning::Diagram(x));
    assert_eq!(rt; names.meaning("f"), Meaning::Free);
    Ok(())
}

/// The text of a workspace, and its counts.
fn text_and_counts(
    alloc: Global,
    store: &Store,
    workspace: &Workspace,
) -> Result<(Vec<u8>, Stats), AllocError>
    requires { IsHeld store.now workspace.now }
{
    let written = document(alloc, store, workspace)?;
    let bytes = document_text(alloc, &written)?;
    Ok((bytes, stats(alloc, store, workspace)?))
}

/// The text of the workspace over x and x -> f <- x, and its counts.
fn written(store: &mut Store) -> Result<(Vec<u8>, Stats), Fail> {
    let alloc = store.allocator();
    let ids = put(store)?;
    let x = diagram_in(store, &ids, 0, 0).ok_or("no point")?;
    let d = diagram_in(store, &ids, 3, 1).ok_or("no diagram")?;
    let workspace = sample(alloc, store, x, d)?;
    Ok(text_and_counts(alloc, store, &workspace)?)
}

#[test]
fn writes_and_counts(rt: HostRuntime) -> Result<(), Fail> {
    let (bytes, counts) = over_new_store(rt.alloc(), written)?;
    let text =
        "{\"diagrams\":[{\"name\":\"d\",\"root\":3}],\"format\":1,\"generators\":[{\"name\":\"x\"},{\"name\":\"f\",\"source\":0,\"target\":0}],\"maps\":[],\"nodes\":[{\"label\":[0,0]},{\"label\":[1,1]},{\"labels\":[[0,0],[1,1]]},{\"bwds\":[2],\"fwds\":[2],\"regs\":[0,0],\"sings\":[1]}]}";
    assert!(rt; bytes.as_slice() == text.as_bytes());
    let want = Stats {
        generators: 2,
        named: 1,
        maps: 0,
        diagrams: 3,
        arrows: 1,
    };
    assert_eq!(rt; counts, want);
    Ok(())
}
