ghost use Rattle.std.specs.Prelude.{◌≡◌, slice_index_or};
ghost use Rattle.diagram_terms.specs.Nodes.{all_below, places_below, is_of, all_of, rises_from, diagram_lengths, diagram_over, arrow_over, first_sort, sort_of};
ghost use Rattle.node_json.specs.Step.{GivesExactly};
ghost use Rattle.node_json.specs.NodeForms.{sort_behind};

use crate::fault::FormFault;
use diagram_terms::{GREATEST_DIM, Node, Sort};

fn all_below(limit: usize, places: &[usize]) -> bool
    ensures { result ≡ all_below limit places.now }
{
    places.iter().all(|place| *place < limit)
}

fn places_below(limit: usize, node: &Node) -> bool
    ensures { result ≡ places_below limit node.now }
{
    match node {
        Node::Label(_) => true,
        Node::Labels(_, _) => true,
        Node::Diagram {
            regs,
            sings,
            fwds,
            bwds,
        } => {
            all_below(limit, regs.as_slice())
                && all_below(limit, sings.as_slice())
                && all_below(limit, fwds.as_slice())
                && all_below(limit, bwds.as_slice())
        }
        Node::Arrow { regs, sings, .. } => {
            all_below(limit, regs.as_slice()) && all_below(limit, sings.as_slice())
        }
    }
}

fn sort_at(sorts: &[Sort], place: usize) -> Sort
    ensures { result ≡ slice_index_or sorts.now place (Sort.Diagram 0) }
{
    match sorts.get(place) {
        Some(sort) => *sort,
        None => Sort::Diagram(0),
    }
}

fn is_of(sorts: &[Sort], sort: Sort, place: usize) -> bool
    ensures { result ≡ is_of sorts.now sort place }
{
    match (sort_at(sorts, place), sort) {
        (Sort::Diagram(one), Sort::Diagram(other)) => one == other,
        (Sort::Arrow(one), Sort::Arrow(other)) => one == other,
        _ => false,
    }
}

fn all_of(sorts: &[Sort], sort: Sort, places: &[usize]) -> bool
    ensures { result ≡ all_of sorts.now sort places.now }
{
    places.iter().all(|place| is_of(sorts, sort, *place))
}

/// Whether heights do not fall and are below a limit.
fn rises(limit: usize, heights: &[usize]) -> bool
    ensures { result ≡ rises_from 0 limit heights.now }
{
    let mut low = 0;
    for height in heights {
        if *height < low || *height >= limit {
            return false;
        }
        low = *height;
    }
    true
}

fn first_sort(sorts: &[Sort], places: &[usize]) -> Sort
    ensures { result ≡ first_sort sorts.now places.now }
{
    match places {
        [place, ..] => sort_at(sorts, *place),
        [] => Sort::Diagram(0),
    }
}

fn diagram_lengths(regs: &[usize], sings: &[usize], fwds: &[usize], bwds: &[usize]) -> bool
    ensures { result ≡ diagram_lengths regs.now sings.now fwds.now bwds.now }
{
    let Some((_, rest)) = regs.split_first() else {
        return false;
    };
    rest.len() == sings.len() && fwds.len() == sings.len() && bwds.len() == sings.len()
}

fn diagram_over(
    sorts: &[Sort],
    regs: &[usize],
    sings: &[usize],
    fwds: &[usize],
    bwds: &[usize],
) -> Option<Sort>
    ensures { let first = first_sort sorts.now regs.now in
        result ≡ diagram_over sorts.now regs.now sings.now fwds.now bwds.now first }
{
    let Sort::Diagram(dim) = first_sort(sorts, regs) else {
        return None;
    };
    let fits = dim < GREATEST_DIM
        && all_of(sorts, Sort::Diagram(dim), regs)
        && all_of(sorts, Sort::Diagram(dim), sings)
        && all_of(sorts, Sort::Arrow(dim), fwds)
        && all_of(sorts, Sort::Arrow(dim), bwds);
    if fits {
        Some(Sort::Diagram(dim + 1))
    } else {
        None
    }
}

fn arrow_over(sorts: &[Sort], regs: &[usize], sings: &[usize]) -> Option<Sort>
    ensures { result ≡ arrow_over sorts.now regs.now sings.now (first_sort sorts.now regs.now) }
{
    let Sort::Arrow(dim) = first_sort(sorts, regs) else {
        return None;
    };
    let fits = dim < GREATEST_DIM
        && all_of(sorts, Sort::Arrow(dim), regs)
        && all_of(sorts, Sort::Arrow(dim), sings);
    if fits {
        Some(Sort::Arrow(dim + 1))
    } else {
        None
    }
}

/// The sort of a node behind nodes of these sorts, if its parts fit together.
fn sort_of(sorts: &[Sort], node: &Node) -> Option<Sort>
    ensures { result ≡ sort_of sorts.now node.now }
{
    match node {
        Node::Label(_) => Some(Sort::Diagram(0)),
        Node::Labels(_, _) => Some(Sort::Arrow(0)),
        Node::Diagram {
            regs,
            sings,
            fwds,
            bwds,
        } => {
            let (regs, sings) = (regs.as_slice(), sings.as_slice());
            let (fwds, bwds) = (fwds.as_slice(), bwds.as_slice());
            if !diagram_lengths(regs, sings, fwds, bwds) {
                return None;
            }
            diagram_over(sorts, regs, sings, fwds, bwds)
        }
        Node::Arrow {
            heights,
            regs,
            sings,
        } => arrow_sort(sorts, heights.as_slice(), regs.as_slice(), sings.as_slice()),
    }
}

fn arrow_sort(sorts: &[Sort], heights: &[usize], regs: &[usize], sings: &[usize]) -> Option<Sort>
    ensures { result ≡ sort_of sorts.now (Node.Arrow heights.now regs.now sings.now) }
{
    let (_, rest) = regs.split_first()?;
    if sings.len() == heights.len() && rises(rest.len(), heights) {
        arrow_over(sorts, regs, sings)
    } else {
        None
    }
}

/// The sort of a node behind nodes of these sorts.
pub(crate) fn sort_behind(sorts: &[Sort], node: &Node) -> Result<Sort, FormFault>
    ensures { GivesExactly (λ sort. sort) result (sort_behind sorts.now node.now) }
{
    let place = sorts.len();
    if !places_below(place, node) {
        return Err(FormFault::Early(place));
    }
    match sort_of(sorts, node) {
        Some(sort) => Ok(sort),
        None => Err(FormFault::Shape(place)),
    }
}
