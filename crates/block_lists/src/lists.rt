ghost use Rattle.std.specs.Prelude.{◌≡◌, ◌<◌, ◌≤◌, ◌^◌, [], ◌∷◌, ◌++◌, IfOk, IsTrue, OnOk, OnErr, Some, length, slice_get, take};
ghost use Rattle.block_lists.specs.Blocks.{IsPut, PutsList, AreBlocksOf, blocks_of, distinct_blocks, nonempty, items_of, same_numbers};
ghost use Rattle.block_lists.specs.Counts.{AreCounts};
ghost use Rattle.indexmap.specs.IndexSet.{insert_all};

use indexmap::IndexSet;
use smallvec::SmallVec;
use std::alloc::{AllocError, Global};
use std::marker::Model;

/// The most entries of a block.
const BLOCK: usize = 8;

/// Lists of numbers, each kept once under the number of its place. A list is kept in blocks, of
/// which each distinct one is kept once.
#[derive(Drop)]
pub struct Lists {
    blocks: IndexSet<SmallVec<usize, 8>>,
    // most lists have one block
    lists: IndexSet<SmallVec<usize, 1>>,
    // where the empty list was put last, so that it is not searched for
    empty: usize,
    // where a list that is not empty was put last: the same one is often put again at once, and is
    // then compared and not hashed
    last: usize,
}

/// How many lists there are, and how many distinct blocks they have.
#[derive(Drop)]
pub struct Counts {
    pub lists: usize,
    pub blocks: usize,
}

impl Model for Lists {
    ghost use Rattle.std.specs.Prelude.{ℕ, List};

    ghost Value = { List (List ℕ) };

    ghost use Rattle.block_lists.specs.Blocks.{AreInBlocks, lists_in, items_of};

    ghost view = { λ s. lists_in (items_of s.blocks.keys) (items_of s.lists.keys) };

    ghost invariant = { λ s. AreInBlocks (items_of s.blocks.keys) (items_of s.lists.keys) };
}

impl Lists {
    ghost use Rattle.std.specs.Prelude.{get_or, slice_index};

    /// No lists.
    pub fn new(alloc: Global) -> Lists
        ensures { result ≡ [] }
    {
        Lists {
            blocks: IndexSet::new(alloc),
            lists: IndexSet::new(alloc),
            empty: 0,
            last: 0,
        }
    }

    /// The allocator that the lists take memory from.
    pub fn allocator(&self) -> Global {
        *self.blocks.allocator()
    }

    /// The number of a list, which is put last where it is new.
    pub fn put(&mut self, items: &[usize]) -> Result<usize, AllocError>
        ensures put { IfOk result (λ number. IsPut self.old self.new items.now number) }
        ensures err { OnErr result (self.new ≡ self.old) }
    {
        if items.is_empty() {
            return self.put_empty();
        }
        if self.is_at(self.last, items) {
            return Ok(self.last);
        }
        self.put_anew(items)
    }

    /// The number of a list, which is searched for, and put last where it is new.
    fn put_anew(&mut self, items: &[usize]) -> Result<usize, AllocError>
        ensures put { IfOk result (λ number. IsPut self.old self.new items.now number) }
        ensures err { OnErr result (self.new ≡ self.old) }
    {
        let held = self.blocks.len();
        match put_list(&mut self.blocks, &mut self.lists, items) {
            Ok(number) => {
                self.last = number;
                Ok(number)
            }
            Err(error) => {
                self.blocks.truncate(held);
                Err(error)
            }
        }
    }

    /// The number of the empty list, which is put last where it is new.
    fn put_empty(&mut self) -> Result<usize, AllocError>
        ensures put { IfOk result (λ number. IsPut self.old self.new [] number) }
        ensures err { OnErr result (self.new ≡ self.old) }
    {
        if self.is_empty_at(self.empty) {
            return Ok(self.empty);
        }
        let alloc = self.allocator();
        let (number, _) = self.lists.insert_full(SmallVec::new(alloc))?;
        self.empty = number;
        Ok(number)
    }

    /// Whether the empty list has this number.
    fn is_empty_at(&self, list: usize) -> bool
        ensures { IsTrue result → slice_get self.now list ≡ Some [] }
    {
        list < self.lists.len() && self.len(list) == 0
    }

    /// Whether the list with this number has these entries.
    fn is_at(&self, list: usize, items: &[usize]) -> bool
        ensures { IsTrue result → slice_get self.now list ≡ Some items.now }
    {
        list < self.lists.len() && self.len(list) == items.len() && self.has_entries(list, items)
    }

    /// Whether a list that is as long as this one has its entries.
    fn has_entries(&self, list: usize, items: &[usize]) -> bool
        requires list { list < length self.now }
        requires long { length (get_or self.now list []) ≡ length items.now }
        ensures { IsTrue result → get_or self.now list [] ≡ items.now }
    {
        for at in 0..items.len() {
            if self.at(list, at) != items[at] {
                return false;
            }
        }
        true
    }

    /// How many lists there are, and how many distinct blocks they have.
    pub fn counts(&self) -> Counts
        ensures { AreCounts self.now result }
    {
        Counts {
            lists: self.lists.len(),
            blocks: self.blocks.len(),
        }
    }

    /// How many distinct blocks the lists have.
    pub fn block_count(&self) -> usize
        ensures count { result ≡ length (distinct_blocks self.now) }
        ensures small { result < 2 ^ 60 }
    {
        self.blocks.as_slice().len()
    }

    /// How many lists are not empty.
    pub fn filled_count(&self) -> usize
        ensures count { result ≡ length (nonempty self.now) }
        ensures small { result < 2 ^ 60 }
    {
        let lists = self.lists.as_slice();
        let mut count = 0;
        for at in 0..lists.len() {
            count += filled(lists[at].as_slice());
        }
        count
    }

    /// Keeps the first lists, of which these are the counts.
    pub fn truncate(&mut self, counts: &Counts)
        requires { AreCounts (take counts.now.lists self.old) counts.now }
        ensures { self.new ≡ take counts.now.lists self.old }
    {
        self.lists.truncate(counts.lists);
        self.blocks.truncate(counts.blocks);
    }

    /// The length of a list.
    pub fn len(&self, list: usize) -> usize
        requires { list < length self.now }
        ensures { result ≡ length (get_or self.now list []) }
    {
        let numbers = &self.lists[list];
        if numbers.len() == 0 {
            return 0;
        }
        let last = numbers.len() - 1;
        last * BLOCK + self.blocks[numbers[last]].len()
    }

    /// An entry of a list.
    pub fn at(&self, list: usize, at: usize) -> usize
        requires list { list < length self.now }
        requires within { at < length (get_or self.now list []) }
        ensures { result ≡ slice_index (get_or self.now list []) at }
    {
        let block = self.lists[list][at / BLOCK];
        self.blocks[block][at % BLOCK]
    }
}

/// 1 for a list that has an entry, 0 for the empty one.
fn filled(numbers: &[usize]) -> usize
    ensures count { result ≡ length (nonempty (numbers.now ∷ [])) }
    ensures small { result ≤ 1 }
{
    usize::from(!numbers.is_empty())
}

/// Puts the blocks of a list, and then the list.
fn put_list(
    blocks: &mut IndexSet<SmallVec<usize, 8>>,
    lists: &mut IndexSet<SmallVec<usize, 1>>,
    items: &[usize],
) -> Result<usize, AllocError>
    ensures grows { take (length blocks.old.keys) (items_of blocks.new.keys) ≡ items_of blocks.old.keys }
    ensures unchanged { OnErr result (items_of lists.new.keys ≡ items_of lists.old.keys) }
    ensures put { IfOk result (λ number. PutsList (items_of blocks.old.keys) (items_of blocks.new.keys) (items_of lists.old.keys) (items_of lists.new.keys) items.now number) }
{
    let numbers = put_blocks(blocks, items)?;
    let (number, _) = lists.insert_full(numbers)?;
    Ok(number)
}

/// The numbers of the blocks of a list, which are put where they are new.
fn put_blocks(
    blocks: &mut IndexSet<SmallVec<usize, 8>>,
    items: &[usize],
) -> Result<SmallVec<usize, 1>, AllocError>
    ensures grows { take (length blocks.old.keys) (items_of blocks.new.keys) ≡ items_of blocks.old.keys }
    ensures ok { IfOk result (λ ns. AreBlocksOf (items_of blocks.new.keys) ns.items items.now) }
    ensures blocks { OnOk result (items_of blocks.new.keys ≡ insert_all same_numbers (items_of blocks.old.keys) (blocks_of items.now)) }
{
    let alloc = *blocks.allocator();
    let mut numbers = SmallVec::new(alloc);
    let mut rest = items;
    while !rest.is_empty() {
        let (block, tail) = rest.split_at(rest.len().min(BLOCK));
        let (number, _) = blocks.insert_full(SmallVec::from_slice(alloc, block)?)?;
        numbers.push(number)?;
        rest = tail;
    }
    Ok(numbers)
}
