ghost use Rattle.std.specs.Prelude.{◌≡◌, ℕ, ◌<◌, List, [], ◌∷◌, IfOk, OnErr, length, get_or, slice_get, Some};
ghost use Rattle.block_lists.specs.Blocks.{IsPut, Among};
ghost use Rattle.hashcons.specs.Entries.{AreHeld, CountsTables, Gains, GainsLists, HaveCounts, PutsDiagramEntry, PutsArrowEntry, ShowsDiagram, ShowsArrow, first_lists, no_lists, diagram_parts, leg_parts, slice_parts, height_parts, diagram_views, arrow_views};
ghost use Rattle.hashcons.specs.Nodes.{viewed_diagram, viewed_arrow};

use crate::id::{ArrowId, DiagramId};
use crate::node::{ArrowNode, DiagramNode};
use crate::storage::Storage;
use crate::view::{ArrowView, DiagramView, Held};
use block_lists::{Counts, Lists};
use diagram_terms::Label;
use indexmap::IndexSet;
use smallvec::SmallVec;
use std::alloc::{AllocError, Global};

/// A diagram by the numbers of its lists.
#[derive(Clone, Copy, Debug, PartialEq, Eq, Hash)]
pub(crate) enum DiagramEntry {
    Zero(Label),
    Zig {
        regs: usize,
        sings: usize,
        fwds: usize,
        bwds: usize,
    },
}

/// An arrow by the numbers of its lists.
#[derive(Clone, Copy, Debug, PartialEq, Eq, Hash)]
pub(crate) enum ArrowEntry {
    Zero(Label, Label),
    Zig {
        heights: usize,
        regs: usize,
        sings: usize,
    },
}

/// The lists of all nodes: of diagrams, of arrows, and of heights.
#[derive(Drop)]
pub(crate) struct NodeLists {
    diagrams: Lists,
    arrows: Lists,
    heights: Lists,
}

/// The counts of each kind of lists.
#[derive(Drop)]
pub(crate) struct NodeCounts {
    pub(crate) diagrams: Counts,
    pub(crate) arrows: Counts,
    pub(crate) heights: Counts,
}

impl NodeLists {
    /// No lists.
    fn new(alloc: Global) -> NodeLists
        ensures { result ≡ no_lists }
    {
        NodeLists {
            diagrams: Lists::new(alloc),
            arrows: Lists::new(alloc),
            heights: Lists::new(alloc),
        }
    }

    /// The counts of each kind.
    fn counts(&self) -> NodeCounts
        ensures { HaveCounts self.now result }
    {
        NodeCounts {
            diagrams: self.diagrams.counts(),
            arrows: self.arrows.counts(),
            heights: self.heights.counts(),
        }
    }

    /// Keeps the first lists of each kind, of which these are the counts.
    fn truncate(&mut self, counts: &NodeCounts)
        requires { HaveCounts (first_lists counts.now self.old) counts.now }
        ensures { self.new ≡ first_lists counts.now self.old }
    {
        self.diagrams.truncate(&counts.diagrams);
        self.arrows.truncate(&counts.arrows);
        self.heights.truncate(&counts.heights);
    }

    /// Puts the lists of a diagram.
    fn put_diagram(&mut self, node: &DiagramNode) -> Result<DiagramEntry, AllocError>
        ensures gains { GainsLists self.old self.new (diagram_parts (viewed_diagram node.now)) (leg_parts (viewed_diagram node.now)) [] }
        ensures shows { IfOk result (λ e. ShowsDiagram self.new e (viewed_diagram node.now)) }
    {
        match node {
            DiagramNode::Zero(label) => Ok(DiagramEntry::Zero(*label)),
            DiagramNode::Zig {
                regs,
                sings,
                fwds,
                bwds,
            } => Ok(DiagramEntry::Zig {
                regs: put_diagrams(&mut self.diagrams, regs.as_slice())?,
                sings: put_diagrams(&mut self.diagrams, sings.as_slice())?,
                fwds: put_arrows(&mut self.arrows, fwds.as_slice())?,
                bwds: put_arrows(&mut self.arrows, bwds.as_slice())?,
            }),
        }
    }

    /// Puts the lists of an arrow.
    fn put_arrow(&mut self, node: &ArrowNode) -> Result<ArrowEntry, AllocError>
        ensures gains { GainsLists self.old self.new [] (slice_parts (viewed_arrow node.now)) (height_parts (viewed_arrow node.now)) }
        ensures shows { IfOk result (λ e. ShowsArrow self.new e (viewed_arrow node.now)) }
    {
        match node {
            ArrowNode::Zero(from, to) => Ok(ArrowEntry::Zero(*from, *to)),
            ArrowNode::Zig {
                heights,
                regs,
                sings,
            } => {
                let regs = put_arrows(&mut self.arrows, regs.as_slice())?;
                self.put_arrow_over(regs, heights.as_slice(), sings.as_slice())
            }
        }
    }

    /// Puts the lists of an arrow whose regular slices are a list that is held.
    fn put_arrow_over(
        &mut self,
        regs: usize,
        heights: &[usize],
        sings: &[ArrowId],
    ) -> Result<ArrowEntry, AllocError>
        requires { regs < length self.old.arrows }
        ensures gains { GainsLists self.old self.new [] (sings.now ∷ []) (heights.now ∷ []) }
        ensures shows { IfOk result (λ e. ShowsArrow self.new e (ArrowView.Zig heights.now (get_or self.old.arrows regs []) sings.now)) }
    {
        Ok(ArrowEntry::Zig {
            heights: put_heights(&mut self.heights, heights)?,
            regs,
            sings: put_arrows(&mut self.arrows, sings)?,
        })
    }
}

/// The number of a list of heights.
fn put_heights(lists: &mut Lists, heights: &[usize]) -> Result<usize, AllocError>
    ensures held { IfOk result (λ number. slice_get lists.new number ≡ Some heights.now) }
    ensures gains { (parts : List (List ℕ)) → Among parts heights.now → Gains lists.old lists.new parts }
{
    lists.put(heights)
}

/// The number of a list of diagrams.
fn put_diagrams(lists: &mut Lists, diagrams: &[DiagramId]) -> Result<usize, AllocError>
    ensures held { IfOk result (λ number. slice_get lists.new number ≡ Some diagrams.now) }
    ensures gains { (parts : List (List ℕ)) → Among parts diagrams.now → Gains lists.old lists.new parts }
{
    let mut numbers: SmallVec<usize, 8> = SmallVec::new(lists.allocator());
    for d in diagrams {
        numbers.push(d.index)?;
    }
    lists.put(numbers.as_slice())
}

/// The number of a list of arrows.
fn put_arrows(lists: &mut Lists, arrows: &[ArrowId]) -> Result<usize, AllocError>
    ensures held { IfOk result (λ number. slice_get lists.new number ≡ Some arrows.now) }
    ensures gains { (parts : List (List ℕ)) → Among parts arrows.now → Gains lists.old lists.new parts }
{
    let mut numbers: SmallVec<usize, 8> = SmallVec::new(lists.allocator());
    for a in arrows {
        numbers.push(a.index)?;
    }
    lists.put(numbers.as_slice())
}

/// The nodes of a store, by their lists, of which each is kept once.
#[derive(Drop)]
pub(crate) struct Tables {
    diagrams: IndexSet<DiagramEntry>,
    arrows: IndexSet<ArrowEntry>,
    lists: NodeLists,
}

impl Tables {
    /// No nodes.
    pub(crate) fn new(alloc: Global) -> Tables
        ensures held { AreHeld result }
        ensures diagrams { diagram_views result ≡ [] }
        ensures arrows { arrow_views result ≡ [] }
    {
        Tables {
            diagrams: IndexSet::new(alloc),
            arrows: IndexSet::new(alloc),
            lists: NodeLists::new(alloc),
        }
    }

    /// The allocator that the tables take memory from.
    pub(crate) fn allocator(&self) -> Global {
        *self.diagrams.allocator()
    }

    /// The number of a diagram, which is put last where it is new.
    pub(crate) fn put_diagram(&mut self, node: &DiagramNode) -> Result<usize, AllocError>
        requires { AreHeld self.old }
        ensures held { AreHeld self.new }
        ensures put { IfOk result (λ i. IsPut (diagram_views self.old) (diagram_views self.new) (viewed_diagram node.now) i) }
        ensures err { OnErr result (diagram_views self.new ≡ diagram_views self.old) }
        ensures arrows { arrow_views self.new ≡ arrow_views self.old }
    {
        let counts = self.lists.counts();
        match put_diagram_entry(&mut self.lists, &mut self.diagrams, node) {
            Ok(index) => Ok(index),
            Err(error) => {
                self.lists.truncate(&counts);
                Err(error)
            }
        }
    }

    /// The number of an arrow, which is put last where it is new.
    pub(crate) fn put_arrow(&mut self, node: &ArrowNode) -> Result<usize, AllocError>
        requires { AreHeld self.old }
        ensures held { AreHeld self.new }
        ensures put { IfOk result (λ i. IsPut (arrow_views self.old) (arrow_views self.new) (viewed_arrow node.now) i) }
        ensures err { OnErr result (arrow_views self.new ≡ arrow_views self.old) }
        ensures diagrams { diagram_views self.new ≡ diagram_views self.old }
    {
        let counts = self.lists.counts();
        match put_arrow_entry(&mut self.lists, &mut self.arrows, node) {
            Ok(index) => Ok(index),
            Err(error) => {
                self.lists.truncate(&counts);
                Err(error)
            }
        }
    }

    /// The number of an arrow with the regular slices of another, which is put last where it is new.
    pub(crate) fn put_arrow_like(
        &mut self,
        like: usize,
        heights: &[usize],
        sings: &[ArrowId],
    ) -> Result<usize, AllocError>
        requires held { AreHeld self.old }
        requires within { like < length (arrow_views self.old) }
        requires above { (x y : Label) → slice_get (arrow_views self.old) like ≡ Some (ArrowView.Zero x y) → ⊥ }
        ensures held { AreHeld self.new }
        ensures put { IfOk result (λ i. (hs rs ss : List ℕ) → slice_get (arrow_views self.old) like ≡ Some (ArrowView.Zig hs rs ss) → IsPut (arrow_views self.old) (arrow_views self.new) (ArrowView.Zig heights.now rs sings.now) i) }
        ensures err { OnErr result (arrow_views self.new ≡ arrow_views self.old) }
        ensures diagrams { diagram_views self.new ≡ diagram_views self.old }
    {
        let regs = self.regs_of(like);
        let counts = self.lists.counts();
        match put_entry_over(&mut self.lists, &mut self.arrows, regs, heights, sings) {
            Ok(index) => Ok(index),
            Err(error) => {
                self.lists.truncate(&counts);
                Err(error)
            }
        }
    }

    /// The number of the list of an arrow's regular slices.
    fn regs_of(&self, like: usize) -> usize
        requires held { AreHeld self.now }
        requires within { like < length (arrow_views self.now) }
        requires above { (x y : Label) → slice_get (arrow_views self.now) like ≡ Some (ArrowView.Zero x y) → ⊥ }
        ensures number { result < length self.now.lists.arrows }
        ensures list { (hs rs ss : List ℕ) → slice_get (arrow_views self.now) like ≡ Some (ArrowView.Zig hs rs ss) → get_or self.now.lists.arrows result [] ≡ rs }
    {
        match self.arrows[like] {
            ArrowEntry::Zero(..) => unreachable!(),
            ArrowEntry::Zig { regs, .. } => regs,
        }
    }

    /// How many nodes there are, and how many lists and blocks they have.
    pub(crate) fn storage(&self) -> Storage
        ensures { CountsTables self.now result }
    {
        let lists = &self.lists;
        Storage {
            diagrams: self.diagrams.len(),
            arrows: self.arrows.len(),
            lists: lists.diagrams.filled_count()
                + lists.arrows.filled_count()
                + lists.heights.filled_count(),
            blocks: lists.diagrams.block_count()
                + lists.arrows.block_count()
                + lists.heights.block_count(),
        }
    }

    /// A diagram.
    pub(crate) fn diagram(&self, index: usize) -> DiagramView<'_>
        requires held { AreHeld self.now }
        requires within { index < length (diagram_views self.now) }
        ensures { slice_get (diagram_views self.now) index ≡ Some result }
    {
        let diagrams = &self.lists.diagrams;
        let arrows = &self.lists.arrows;
        match self.diagrams[index] {
            DiagramEntry::Zero(label) => DiagramView::Zero(label),
            DiagramEntry::Zig {
                regs,
                sings,
                fwds,
                bwds,
            } => DiagramView::Zig {
                regs: Held::new(diagrams, regs),
                sings: Held::new(diagrams, sings),
                fwds: Held::new(arrows, fwds),
                bwds: Held::new(arrows, bwds),
            },
        }
    }

    /// An arrow.
    pub(crate) fn arrow(&self, index: usize) -> ArrowView<'_>
        requires held { AreHeld self.now }
        requires within { index < length (arrow_views self.now) }
        ensures { slice_get (arrow_views self.now) index ≡ Some result }
    {
        let arrows = &self.lists.arrows;
        match self.arrows[index] {
            ArrowEntry::Zero(from, to) => ArrowView::Zero(from, to),
            ArrowEntry::Zig {
                heights,
                regs,
                sings,
            } => ArrowView::Zig {
                heights: Held::new(&self.lists.heights, heights),
                regs: Held::new(arrows, regs),
                sings: Held::new(arrows, sings),
            },
        }
    }
}

/// Puts the lists of a diagram, and then its entry.
fn put_diagram_entry(
    lists: &mut NodeLists,
    diagrams: &mut IndexSet<DiagramEntry>,
    node: &DiagramNode,
) -> Result<usize, AllocError>
    ensures gains { GainsLists lists.old lists.new (diagram_parts (viewed_diagram node.now)) (leg_parts (viewed_diagram node.now)) [] }
    ensures err { OnErr result (diagrams.new.keys ≡ diagrams.old.keys) }
    ensures put { IfOk result (λ i. PutsDiagramEntry lists.new diagrams.old.keys diagrams.new.keys (viewed_diagram node.now) i) }
{
    let entry = lists.put_diagram(node)?;
    let (index, _) = diagrams.insert_full(entry)?;
    Ok(index)
}

/// Puts the lists of an arrow, and then its entry.
fn put_arrow_entry(
    lists: &mut NodeLists,
    arrows: &mut IndexSet<ArrowEntry>,
    node: &ArrowNode,
) -> Result<usize, AllocError>
    ensures gains { GainsLists lists.old lists.new [] (slice_parts (viewed_arrow node.now)) (height_parts (viewed_arrow node.now)) }
    ensures err { OnErr result (arrows.new.keys ≡ arrows.old.keys) }
    ensures put { IfOk result (λ i. PutsArrowEntry lists.new arrows.old.keys arrows.new.keys (viewed_arrow node.now) i) }
{
    let entry = lists.put_arrow(node)?;
    let (index, _) = arrows.insert_full(entry)?;
    Ok(index)
}

/// Puts the lists of an arrow whose regular slices are a list that is held, and then its entry.
fn put_entry_over(
    lists: &mut NodeLists,
    arrows: &mut IndexSet<ArrowEntry>,
    regs: usize,
    heights: &[usize],
    sings: &[ArrowId],
) -> Result<usize, AllocError>
    requires { regs < length lists.old.arrows }
    ensures gains { GainsLists lists.old lists.new [] (sings.now ∷ []) (heights.now ∷ []) }
    ensures err { OnErr result (arrows.new.keys ≡ arrows.old.keys) }
    ensures put { IfOk result (λ i. PutsArrowEntry lists.new arrows.old.keys arrows.new.keys (ArrowView.Zig heights.now (get_or lists.old.arrows regs []) sings.now) i) }
{
    let entry = lists.put_arrow_over(regs, heights, sings)?;
    let (index, _) = arrows.insert_full(entry)?;
    Ok(index)
}
