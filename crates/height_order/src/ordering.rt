ghost use Rattle.std.specs.Prelude.{◌≡◌, IfOk, IfErr};
ghost use Rattle.diagram_terms.specs.HeightClasses.{IsHeightShape};
ghost use Rattle.diagram_terms.specs.Ranks.{IsRanked};
ghost use Rattle.height_order.specs.Shapes.{shape_of};
ghost use Rattle.height_order.specs.Answers.{IsFault, ranks_of};
ghost use Rattle.height_order.specs.declared.ordering.OrderFault.TheVariants.{NoMemory};

use crate::fault::{first_loop, first_pair};
use crate::graph::make_graph;
use crate::height_map::HeightMap;
use crate::rank::{rank_classes, ranks_by_object};
use crate::reach::reaching;
use diagram_terms::{Bias, Items};
use std::alloc::{AllocError, Global};
use thiserror::Error;

/// The rank of each height, by object, and how many ranks there are.
#[derive(Debug, Drop)]
pub struct Ranks {
    pub ranks: Items<Items<usize>>,
    pub count: usize,
}

/// Why there are no ranks. A member is an object and one of its heights.
#[derive(Debug, Clone, Copy, PartialEq, Eq, Error)]
pub enum OrderFault {
    /// The class of this member, its least one, reaches itself.
    #[error("the class of {member:?}, an object and one of its heights, reaches itself")]
    Cyclic {
        member: (usize, usize),
    },
    /// The classes of these members, their least ones, do not reach each other.
    #[error("nothing orders {one:?} and {other:?}, each an object and one of its heights")]
    Unsettled {
        one: (usize, usize),
        other: (usize, usize),
    },
    /// Memory ran out.
    #[error("out of memory")]
    NoMemory,
}

impl From<AllocError> for OrderFault {
    ghost from_gives = { λ _ e. e ≡ NoMemory };

    fn from(_e: AllocError) -> OrderFault {
        OrderFault::NoMemory
    }
}

/// The ranks of the heights of objects with these lengths, which the maps between them join.
pub fn order(
    alloc: Global,
    lengths: &[usize],
    maps: &[HeightMap],
    bias: Bias,
) -> Result<Ranks, OrderFault>
    requires { IsHeightShape (shape_of lengths.now maps.now) }
    ensures ok { IfOk result (λ r. IsRanked bias (shape_of lengths.now maps.now) (ranks_of r)) }
    ensures err { IfErr result (IsFault bias (shape_of lengths.now maps.now)) }
{
    let graph = make_graph(alloc, lengths, maps)?;
    let members = graph.places.members.as_slice();
    let classes = graph.classes.as_slice();
    let edges = graph.edges.as_slice();
    let rows = reaching(alloc, members.len(), edges)?;
    let reached = rows.as_slice();
    if let Some(place) = first_loop(reached) {
        return Err(OrderFault::Cyclic {
            member: members[place],
        });
    }
    if let Bias::Unbiased = bias {
        if let Some((one, other)) = first_pair(classes, reached) {
            return Err(OrderFault::Unsettled {
                one: members[one],
                other: members[other],
            });
        }
    }
    let ranking = rank_classes(alloc, bias, members, classes, edges)?;
    let ranks = ranks_by_object(alloc, lengths, &graph.places, classes, &ranking)?;
    Ok(Ranks {
        ranks,
        count: ranking.count,
    })
}
