//! The order of labels, and the join of a list of them.
#![tactic(auto)]

ghost use Rattle.std.specs.Prelude.{◌<◌, ◌↔◌, IsTrue, IfOk, IfErr, length};
ghost use Rattle.diagram_terms.specs.Labels.{IsAtMost, IsJoin, IsFirstClash};
ghost use Rattle.label_order.specs.Laws.{JoinsOrClashes};

use diagram_terms::Label;

/// Two different labels that share the greatest dimension of a list.
#[derive(Clone, Copy, Debug, PartialEq, Eq)]
pub struct Clash {
    /// The first label of the greatest dimension.
    pub one: Label,
    /// The first later label of that dimension that differs from it.
    pub other: Label,
}

/// Whether `x` may stand where `y` does: it is `y`, or has a smaller dimension.
pub fn leq(x: Label, y: Label) -> bool
    ensures { IsTrue result ↔ IsAtMost x y }
{
    x.is_at_most(y)
}

/// The one label that all others are at most, or the first two that prevent it.
pub fn join(labels: &[Label]) -> Result<Label, Clash>
    requires { 0 < length labels.now }
    ensures ok { IfOk result (IsJoin labels.now) }
    ensures clash { IfErr result (λ c. IsFirstClash labels.now c.one c.other) }
{
    let mut one = labels[0];
    let mut clashing = None;
    for x in &labels[1..] {
        if one.dim < x.dim {
            one = *x;
            clashing = None;
        } else if clashing.is_none() && !x.is_at_most(one) {
            clashing = Some(*x);
        }
    }
    match clashing {
        None => Ok(one),
        Some(other) => Err(Clash { one, other }),
    }
}

/// No list of labels has both a join and a first clash, and none has two joins.
pub fn joins_or_clashes()
    ensures { JoinsOrClashes }
{}
