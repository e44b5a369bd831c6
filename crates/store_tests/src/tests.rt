use hashcons::Store;
use std::alloc::Global;

mod heights;
mod identities;
mod labels;
mod storage;
mod store;
mod trees;

/// The nodes of x, f, (x, f) and x -> f <- x.
const LOOP: &str =
    r#"{"label":[0,0]},{"label":[1,1]},{"labels":[[0,0],[1,1]]},{"bwds":[2],"fwds":[2],"regs":[0,0],"sings":[1]}"#;

/// What is answered over a new store. A function that has a store of its own is dear to prove, so
/// this is the only one.
fn over_new_store<R, F: FnOnce(&mut Store) -> R>(alloc: Global, answer: F) -> R
    requires { F.IsAlwaysCallable answer }
{
    let mut store = Store::new(alloc);
    answer(&mut store)
}
