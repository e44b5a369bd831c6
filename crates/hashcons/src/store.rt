ghost use Rattle.std.specs.Prelude.{◌≡◌};

use crate::id::{ArrowId, DiagramId};
use crate::node::{ArrowNode, DiagramNode};
use crate::notes::NoteTables;
use crate::storage::Storage;
use crate::tables::Tables;
use crate::view::{ArrowView, DiagramView};
use smallvec::SmallVec;
use std::alloc::{AllocError, Global};
use std::marker::Model;

/// A store of diagrams and arrows, in which each tree stands once and children before parents.
///
/// Contracts see the tree of each id, and what was noted of ids, so that it is not worked out
/// twice. An id keeps its tree, and a note stays, whatever is put later.
#[derive(Drop)]
pub struct Store {
    tables: Tables,
    pub(crate) notes: NoteTables,
}

impl Model for Store {
    ghost use Rattle.hashcons.specs.Contents.{Contents, coded_contents};

    ghost Value = { Contents };

    ghost coded = { coded_contents };

    ghost use Rattle.hashcons.specs.Entries.{AreHeld, arrow_views, diagram_views};
    ghost use Rattle.hashcons.specs.NoteTables.{notes_of};
    ghost use Rattle.hashcons.specs.Tables.{contents_of, AreTables};

    ghost view = { λ s. contents_of (arrow_views s.tables) (diagram_views s.tables) (notes_of s.notes) };

    ghost invariant = { λ s. AreTables (arrow_views s.tables) (diagram_views s.tables) (notes_of s.notes) × AreHeld s.tables };
}

impl Store {
    ghost use Rattle.std.specs.Prelude.{◌≡◌, ◌<◌, length, OnErr};
    ghost use Rattle.diagram_terms.specs.Dimension.{dimension_of, IsDiagramTree, IsArrowTree};
    ghost use Rattle.diagram_terms.specs.Dual.{AreBelow};
    ghost use Rattle.hashcons.specs.Contents.{empty, IsStore, IsDiagramOf, IsArrowOf, AddsDiagram, AddsArrow, diagram_at, arrow_at};
    ghost use Rattle.hashcons.specs.Storage.{storage_of};
    ghost use Rattle.hashcons.specs.Made.{MakesDiagram, MakesArrow};
    ghost use Rattle.hashcons.specs.Nodes.{HasChildrenOf, HasArrowsOf, IsArrowOver, IsDiagramOver, described_diagram, described_arrow, described_like, tree_of_arrow, tree_of_diagram};

    /// A store with no nodes.
    pub fn new(alloc: Global) -> Store
        ensures { result ≡ empty }
    {
        Store {
            tables: Tables::new(alloc),
            notes: NoteTables::new(alloc),
        }
    }

    /// The allocator that the store takes memory from.
    pub fn allocator(&self) -> Global
        ensures { IsStore self.now }
    {
        self.tables.allocator()
    }

    /// The id of the arrow that the node describes.
    pub fn put_arrow(&mut self, node: ArrowNode) -> Result<ArrowId, AllocError>
        requires children { HasArrowsOf self.old node }
        requires shape { IsArrowTree (described_arrow self.old node) }
        ensures made { MakesArrow self.old self.new (described_arrow self.old node) result }
        ensures adds { AddsArrow self.old self.new (described_arrow self.old node) }
        ensures err { OnErr result (self.new ≡ self.old) }
    {
        let index = self.tables.put_arrow(&node)?;
        Ok(ArrowId { index })
    }

    /// The id of the arrow with these heights and singular slices, and with the regular slices of
    /// `like`, whose list is not copied.
    pub fn put_arrow_like(
        &mut self,
        like: ArrowId,
        heights: SmallVec<usize, 4>,
        sings: SmallVec<ArrowId, 4>,
    ) -> Result<ArrowId, AllocError>
        requires like { IsArrowOf self.old like }
        requires above { 0 < dimension_of (arrow_at self.old like) }
        requires sings { AreBelow sings.items (length self.old.arrows) }
        requires shape { IsArrowTree (described_like self.old like heights.items sings.items) }
        ensures made { MakesArrow self.old self.new (described_like self.old like heights.items sings.items) result }
        ensures adds { AddsArrow self.old self.new (described_like self.old like heights.items sings.items) }
        ensures err { OnErr result (self.new ≡ self.old) }
    {
        let tables = &mut self.tables;
        let index = tables.put_arrow_like(like.index, heights.as_slice(), sings.as_slice())?;
        Ok(ArrowId { index })
    }

    /// The id of the diagram that the node describes.
    pub fn put_diagram(&mut self, node: DiagramNode) -> Result<DiagramId, AllocError>
        requires children { HasChildrenOf self.old node }
        requires shape { IsDiagramTree (described_diagram self.old node) }
        ensures made { MakesDiagram self.old self.new (described_diagram self.old node) result }
        ensures adds { AddsDiagram self.old self.new (described_diagram self.old node) }
        ensures err { OnErr result (self.new ≡ self.old) }
    {
        let index = self.tables.put_diagram(&node)?;
        Ok(DiagramId { index })
    }

    /// How many distinct trees the store holds, and how many distinct lists of their slices, legs
    /// and heights and how many distinct blocks it keeps of them. It takes no memory.
    pub fn storage(&self) -> Storage
        ensures { result ≡ storage_of self.now }
    {
        self.tables.storage()
    }

    /// A diagram, by the ids of its slices and legs.
    pub(crate) fn view_diagram(&self, id: DiagramId) -> DiagramView<'_>
        requires of_store { IsDiagramOf self.now id }
        ensures tree { tree_of_diagram self.now.arrows self.now.diagrams result ≡ diagram_at self.now id }
        ensures children { IsDiagramOver (length self.now.arrows) (length self.now.diagrams) result }
        ensures store { IsStore self.now }
    {
        self.tables.diagram(id.index)
    }

    /// An arrow, by its heights and the ids of its slices.
    pub(crate) fn view_arrow(&self, id: ArrowId) -> ArrowView<'_>
        requires of_store { IsArrowOf self.now id }
        ensures tree { tree_of_arrow self.now.arrows result ≡ arrow_at self.now id }
        ensures children { IsArrowOver (length self.now.arrows) result }
        ensures store { IsStore self.now }
    {
        self.tables.arrow(id.index)
    }
}
