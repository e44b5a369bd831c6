ghost use Rattle.std.specs.Prelude.{◌≡◌, ◌∷◌, ◌+◌, ◌<◌, IfOk, None, OnErr, Some, drop, length, reverse, suc};
ghost use Rattle.diagram_terms.specs.Decoded.{dia};
ghost use Rattle.diagram_terms.specs.Family.{Dia};
ghost use Rattle.hashcons.specs.Contents.{Contents, IsDiagramOf, diagram_at};
ghost use Rattle.region_cut.specs.NextPoints.{IsFirstAfter, IsNextPoint, IsNextPointIn, IsPointAt, IsWalkOf, last_given, listed, listed_back};

use diagram_terms::Height;
use hashcons::{AnyId, DiagramId, Store};
use std::alloc::{AllocError, Global};

/// A walk over the points of a diagram, in order. It borrows nothing, so the store may grow on the
/// way.
#[derive(Drop)]
pub struct PointWalk {
    diagram: DiagramId,
    last: Option<Vec<Height>>,
}

/// The walk over the points of a diagram, before the first of them. It takes no memory.
pub fn points(d: DiagramId) -> PointWalk
    ensures diagram { result.diagram ≡ d }
    ensures last { result.last ≡ None }
    ensures walk { (c : Contents) → IsDiagramOf c d → IsWalkOf c result }
{
    PointWalk {
        diagram: d,
        last: None,
    }
}

impl PointWalk {
    /// The next point: the first one of the diagram after the one that was given last, and None
    /// exactly where that was the last of all. So it gives each point once, in order, and then None.
    pub fn next_point(
        &mut self,
        alloc: Global,
        store: &Store,
    ) -> Result<Option<Vec<Height>>, AllocError>
        requires walk { IsWalkOf store.now self.old }
        ensures next { IfOk result (λ given. IsNextPointIn (diagram_at store.now self.old.diagram) (listed self.old.last) (listed given)) }
        ensures walk { IsWalkOf store.now self.new }
        ensures diagram { self.new.diagram ≡ self.old.diagram }
        ensures last { IfOk result (λ given. listed self.new.last ≡ last_given given self.old.last) }
        ensures err { OnErr result (self.new ≡ self.old) }
    {
        let Some(mut heights) = self.following(alloc, store)? else {
            return Ok(None);
        };
        heights.reverse();
        let given = heights.clone()?;
        self.last = Some(heights);
        Ok(Some(given))
    }

    /// The next point, its heights from the innermost on.
    fn following(&self, alloc: Global, store: &Store) -> Result<Option<Vec<Height>>, AllocError>
        requires walk { IsWalkOf store.now self.now }
        ensures { IfOk result (λ found. IsNextPointIn (diagram_at store.now self.now.diagram) (listed self.now.last) (listed_back found)) }
    {
        let dim = store.dim(AnyId::Diagram(self.diagram));
        match &self.last {
            None => Ok(Some(first_point(alloc, dim)?)),
            Some(last) => point_after(alloc, store, dim, self.diagram, last, 0),
        }
    }
}

/// The first point of every diagram of dimension `dim`, its heights from the innermost on.
fn first_point(alloc: Global, dim: usize) -> Result<Vec<Height>, AllocError>
    ensures { IfOk result (λ made. (X : Dia dim) → IsFirstAfter dim X None (reverse made.items)) }
{
    if dim == 0 {
        return Ok(Vec::new(alloc));
    }
    let mut heights = first_point(alloc, dim - 1)?;
    heights.push(Height::R(0))?;
    Ok(heights)
}

/// The point of a diagram of dimension `dim` that comes next after the one whose heights are those
/// from `at` on, its heights from the innermost on.
#[cycle(walk)]
fn point_after(
    alloc: Global,
    store: &Store,
    dim: usize,
    d: DiagramId,
    point: &[Height],
    at: usize,
) -> Result<Option<Vec<Height>>, AllocError>
    requires of_store { IsDiagramOf store.now d }
    requires point { IsPointAt dim (diagram_at store.now d) (drop at point.now) }
    ensures { IfOk result (λ next. IsNextPoint dim (dia dim (diagram_at store.now d)) (Some (drop at point.now)) (listed_back next)) }
{
    if dim == 0 {
        return Ok(None);
    }
    match point[at] {
        Height::R(j) => after_regular(alloc, store, dim - 1, d, point, at, j),
        Height::S(k) => after_singular(alloc, store, dim - 1, d, point, at, k),
    }
}

/// The point after one over the regular height `j`: the next one over it, else the first over the
/// singular height behind it.
#[cycle(walk)]
fn after_regular(
    alloc: Global,
    store: &Store,
    below: usize,
    d: DiagramId,
    point: &[Height],
    at: usize,
    j: usize,
) -> Result<Option<Vec<Height>>, AllocError>
    requires of_store { IsDiagramOf store.now d }
    requires point { IsPointAt (suc below) (diagram_at store.now d) (Height.R j ∷ drop (at + 1) point.now) }
    requires at { at < length point.now }
    ensures { IfOk result (λ next. IsNextPoint (suc below) (dia (suc below) (diagram_at store.now d))
        (Some (Height.R j ∷ drop (at + 1) point.now)) (listed_back next)) }
{
    let slice = store.reg(d, j);
    if let Some(mut inside) = point_after(alloc, store, below, slice, point, at + 1)? {
        inside.push(Height::R(j))?;
        return Ok(Some(inside));
    }
    if j >= store.length(d) {
        return Ok(None);
    }
    let mut heights = first_point(alloc, below)?;
    heights.push(Height::S(j))?;
    Ok(Some(heights))
}

/// The point after one over the singular height `k`: the next one over it, else the first over the
/// regular height behind it.
#[cycle(walk)]
fn after_singular(
    alloc: Global,
    store: &Store,
    below: usize,
    d: DiagramId,
    point: &[Height],
    at: usize,
    k: usize,
) -> Result<Option<Vec<Height>>, AllocError>
    requires of_store { IsDiagramOf store.now d }
    requires point { IsPointAt (suc below) (diagram_at store.now d) (Height.S k ∷ drop (at + 1) point.now) }
    requires at { at < length point.now }
    ensures { IfOk result (λ next. IsNextPoint (suc below) (dia (suc below) (diagram_at store.now d))
        (Some (Height.S k ∷ drop (at + 1) point.now)) (listed_back next)) }
{
    if k >= store.length(d) {
        unreachable!();
    }
    let slice = store.sing(d, k);
    if let Some(mut inside) = point_after(alloc, store, below, slice, point, at + 1)? {
        inside.push(Height::S(k))?;
        return Ok(Some(inside));
    }
    let mut heights = first_point(alloc, below)?;
    heights.push(Height::R(k + 1))?;
    Ok(Some(heights))
}
