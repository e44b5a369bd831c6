//! Puts the nodes of a document into a store, and then into another one where it lists them again.
//! With the word `times` it also tells how long each took.
#![tactic(auto)]

ghost use Rattle.std.specs.Prelude.{IfOk};
ghost use Rattle.diagram_terms.specs.Nodes.{AreNodes};
ghost use Rattle.hashcons.specs.Listing.{AreOf};
ghost use Rattle.node_json.specs.Documents.{IsDocument};

use anyhow::{Result, anyhow, bail};
use hashcons::{AnyId, Store};
use io_edge::{INPUT_LIMIT, StdSource, read_all};
use node_json::{Document, read_document};
use std::alloc::{AllocError, Global};
use std::env;
use std::rt::Runtime;
use std::time::Instant;

fn document_of(alloc: Global, input: &mut StdSource) -> Result<Document>
    ensures { IfOk result IsDocument }
{
    let Ok(bytes) = read_all(alloc, input, INPUT_LIMIT) else {
        bail!("the input was not read");
    };
    match read_document(alloc, &bytes) {
        Ok(document) => Ok(document),
        Err(_) => Err(anyhow!("the input is no document")),
    }
}

/// The nodes of a document in a new store, with the id of each.
fn put(alloc: Global, document: &Document) -> Result<(Store, Vec<AnyId>), AllocError>
    requires { AreNodes document.now.nodes }
    ensures { IfOk result (λ held. AreOf held.0 held.1.items) }
{
    let mut store = Store::new(alloc);
    let ids = store.put_nodes(document.nodes.as_slice())?;
    Ok((store, ids))
}

/// How many nodes are listed under these ids, and for how many roots.
fn listed(store: &Store, ids: &[AnyId]) -> Result<(usize, usize), AllocError>
    requires { AreOf store.now ids.now }
{
    let (nodes, places) = store.list(ids)?;
    Ok((nodes.len(), places.len()))
}

/// How many nodes are put.
fn put_count(alloc: Global, document: &Document) -> Result<usize, AllocError>
    requires { AreNodes document.now.nodes }
{
    let (_, ids) = put(alloc, document)?;
    Ok(ids.len())
}

/// How many nodes are put and then listed, and for how many roots.
fn listed_count(alloc: Global, document: &Document) -> Result<(usize, usize), AllocError>
    requires { AreNodes document.now.nodes }
{
    let (store, ids) = put(alloc, document)?;
    listed(&store, &ids)
}

fn measure<R: Runtime + AllocGlobal>(rt: &R, document: &Document, tells_times: bool) -> Result<()>
    requires { AreNodes document.now.nodes }
{
    let start = Instant::now(rt)?;
    let read = put_count(rt.alloc(), document)?;
    let put = start.elapsed(rt)?;
    let start = Instant::now(rt)?;
    let (distinct, roots) = listed_count(rt.alloc(), document)?;
    let both = start.elapsed(rt)?;
    println!(rt; "{read} nodes put, {distinct} listed, {roots} roots")?;
    if tells_times {
        let put = put.as_micros();
        let both = both.as_micros();
        println!(rt; "put in {put} microseconds, put and listed in {both}")?;
    }
    Ok(())
}

fn main(rt: HostRuntime) -> Result<()> {
    let mut words = env::args(&rt)?.skip(1);
    let tells_times = match words.next() {
        None => false,
        Some(word) => word.as_str() == "times",
    };
    let document = document_of(rt.alloc(), &mut StdSource::new(rt.stdin()))?;
    measure(&rt, &document, tells_times)
}
