use found_ids::FoundIds;
use std::alloc::Global;

/// What was found out about a store that is only read, so that no call looks at one thing twice:
/// which arrows are plain, which have the shape of an identity, and in which diagrams each leg is
/// plain. What is not is not kept, since the first leg that is not plain ends the search.
#[derive(Drop)]
pub(crate) struct PlainKept {
    pub(crate) arrows: FoundIds,
    pub(crate) identities: FoundIds,
    pub(crate) passed: FoundIds,
}

impl PlainKept {
    ghost use Rattle.hashcons.specs.Contents.{Contents};
    ghost use Rattle.plain_maps.specs.PlainKeeps.{ArePlain};

    pub(crate) fn new(alloc: Global) -> PlainKept
        ensures { (c : Contents) → ArePlain c result }
    {
        PlainKept {
            arrows: FoundIds::new(alloc),
            identities: FoundIds::new(alloc),
            passed: FoundIds::new(alloc),
        }
    }
}
