ghost use Rattle.std.specs.Prelude.{OnOk};
ghost use Rattle.std.specs.List.{flat_map};
ghost use Rattle.diagram_terms.specs.Completion.{children, completions};
ghost use Rattle.diagram_terms.specs.Nodes.{picked};
ghost use Rattle.hashcons.specs.Contents.{IsStore, IsDiagramOf, IsArrowOf, diagram_at, arrow_at};
ghost use Rattle.hashcons.specs.Ids.{IsOf, tree_of};
ghost use Rattle.hashcons.specs.Listing.{IsListing, Visits, AreOfOneDimension};

use crate::id::{AnyId, ArrowId, DiagramId};
use crate::store::Store;
use crate::view::{ArrowView, DiagramView, Held};
use indexmap::IndexSet;
use std::alloc::AllocError;

impl Store {
    /// Puts the subtrees of an id last, in the order in which they are completed, but for those
    /// that are there already.
    pub(crate) fn visit(&self, id: AnyId, order: &mut IndexSet<AnyId>) -> Result<(), AllocError>
        requires of_store { IsOf self.now id }
        requires store { IsStore self.now }
        requires listing { IsListing self.now order.old.keys }
        ensures { OnOk result (Visits self.now order.old.keys order.new.keys
            (completions (tree_of self.now id))) }
    {
        match id {
            AnyId::Diagram(d) => self.visit_diagram(d, order),
            AnyId::Arrow(a) => self.visit_arrow(a, order),
        }
    }

    /// Visits a diagram: its parts, and then it is completed.
    #[cycle(visit_diagrams)]
    fn visit_diagram(&self, d: DiagramId, order: &mut IndexSet<AnyId>) -> Result<(), AllocError>
        requires of_store { IsDiagramOf self.now d }
        requires store { IsStore self.now }
        requires listing { IsListing self.now order.old.keys }
        ensures { OnOk result (Visits self.now order.old.keys order.new.keys
            (completions (diagram_at self.now d))) }
    {
        if order.contains(&AnyId::Diagram(d)) {
            return Ok(());
        }
        self.visit_parts(d, order)?;
        order.insert(AnyId::Diagram(d))?;
        Ok(())
    }

    /// Visits the slices and legs of a diagram.
    #[cycle(visit_diagrams)]
    fn visit_parts(&self, d: DiagramId, order: &mut IndexSet<AnyId>) -> Result<(), AllocError>
        requires of_store { IsDiagramOf self.now d }
        requires store { IsStore self.now }
        requires listing { IsListing self.now order.old.keys }
        ensures { OnOk result (Visits self.now order.old.keys order.new.keys
            (flat_map completions (children (diagram_at self.now d)))) }
    {
        match self.view_diagram(d) {
            DiagramView::Zero(_) => Ok(()),
            DiagramView::Zig {
                regs,
                sings,
                fwds,
                bwds,
            } => {
                self.visit_diagrams(&regs, order)?;
                self.visit_diagrams(&sings, order)?;
                self.visit_arrows(&fwds, order)?;
                self.visit_arrows(&bwds, order)
            }
        }
    }

    /// Visits diagrams of one dimension in turn.
    #[cycle(visit_diagrams)]
    fn visit_diagrams(&self, ds: &Held<'_>, order: &mut IndexSet<AnyId>) -> Result<(), AllocError>
        requires of_store { AreOfOneDimension self.now.diagrams ds.now }
        requires store { IsStore self.now }
        requires listing { IsListing self.now order.old.keys }
        ensures { OnOk result (Visits self.now order.old.keys order.new.keys
            (flat_map completions (picked self.now.diagrams ds.now))) }
    {
        for at in 0..ds.len() {
            self.visit_diagram(DiagramId { index: ds.at(at) }, order)?;
        }
        Ok(())
    }

    /// Visits an arrow: its slices, and then it is completed.
    #[cycle(visit_arrows)]
    fn visit_arrow(&self, a: ArrowId, order: &mut IndexSet<AnyId>) -> Result<(), AllocError>
        requires of_store { IsArrowOf self.now a }
        requires store { IsStore self.now }
        requires listing { IsListing self.now order.old.keys }
        ensures { OnOk result (Visits self.now order.old.keys order.new.keys
            (completions (arrow_at self.now a))) }
    {
        if order.contains(&AnyId::Arrow(a)) {
            return Ok(());
        }
        self.visit_slices(a, order)?;
        order.insert(AnyId::Arrow(a))?;
        Ok(())
    }

    /// Visits the slices of an arrow.
    #[cycle(visit_arrows)]
    fn visit_slices(&self, a: ArrowId, order: &mut IndexSet<AnyId>) -> Result<(), AllocError>
        requires of_store { IsArrowOf self.now a }
        requires store { IsStore self.now }
        requires listing { IsListing self.now order.old.keys }
        ensures { OnOk result (Visits self.now order.old.keys order.new.keys
            (flat_map completions (children (arrow_at self.now a)))) }
    {
        match self.view_arrow(a) {
            ArrowView::Zero(..) => Ok(()),
            ArrowView::Zig { regs, sings, .. } => {
                self.visit_arrows(&regs, order)?;
                self.visit_arrows(&sings, order)
            }
        }
    }

    /// Visits arrows of one dimension in turn.
    #[cycle(visit_arrows)]
    fn visit_arrows(&self, arrows: &Held<'_>, order: &mut IndexSet<AnyId>) -> Result<(), AllocError>
        requires of_store { AreOfOneDimension self.now.arrows arrows.now }
        requires store { IsStore self.now }
        requires listing { IsListing self.now order.old.keys }
        ensures { OnOk result (Visits self.now order.old.keys order.new.keys
            (flat_map completions (picked self.now.arrows arrows.now))) }
    {
        for at in 0..arrows.len() {
            self.visit_arrow(
                ArrowId {
                    index: arrows.at(at),
                },
                order,
            )?;
        }
        Ok(())
    }
}
