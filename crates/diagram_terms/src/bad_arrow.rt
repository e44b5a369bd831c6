ghost use Rattle.std.specs.Prelude.{◌≡◌, ℕ, suc, length, nat_eq, ◌&&◌, IfOk};
ghost use Rattle.diagram_terms.specs.Family.{Arr, Dia};
ghost use Rattle.diagram_terms.specs.Levels.{RegsBetween, SingsBetween, StandsBetween, reg_tests, sing_tests};
ghost use Rattle.diagram_terms.specs.Places.{arrow_tests, ends_hold, first_failure};

use crate::dual::dual_from;
use crate::edges::first_bad_square_of;
use crate::label::Label;
use crate::place::{End, Place, Step, place_here, place_under};
use crate::tree::{Arrow, Diagram};
use std::alloc::{AllocError, Global};

fn pair_fits(start: Label, finish: Label, x: Label, y: Label) -> bool
    ensures { result ≡ ends_hold x y (record { from = start; to = finish }) }
{
    start == x && finish == y && x.is_at_most(y)
}

/// Whether an arrow of dimension 0 is the pair of its ends, in order.
fn leg_fits(leg: &Arrow, from: &Diagram, to: &Diagram) -> bool
    requires { (f : Arr 0) × (x : Dia 0) × (y : Dia 0) × StandsBetween 0 f x y leg.now from.now to.now }
    ensures { (f : Arr 0) (x y : Dia 0) → StandsBetween 0 f x y leg.now from.now to.now
        → result ≡ ends_hold x y f }
{
    let Arrow::Zero(start, finish) = leg else {
        unreachable!()
    };
    let Diagram::Zero(x) = from else {
        unreachable!()
    };
    let Diagram::Zero(y) = to else { unreachable!() };
    pair_fits(*start, *finish, *x, *y)
}

fn counts_fit(
    heights: &[usize],
    regs: &[Arrow],
    from_sings: &[Diagram],
    to_regs: &[Diagram],
) -> bool
    ensures { result ≡ nat_eq (length heights.now) (length from_sings.now)
        && nat_eq (length regs.now) (length to_regs.now) }
{
    heights.len() == from_sings.len() && regs.len() == to_regs.len()
}

/// The first place at which an arrow between two valid diagrams is not valid.
#[cycle(arrows_between)]
pub(crate) fn first_bad_in_arrow(
    alloc: Global,
    leg: &Arrow,
    from: &Diagram,
    to: &Diagram,
) -> Result<Option<Place>, AllocError>
    requires { (n : ℕ) × (f : Arr n) × (X : Dia n) × (Y : Dia n)
        × StandsBetween n f X Y leg.now from.now to.now }
    ensures { IfOk result (λ found. (n : ℕ) (f : Arr n) (X Y : Dia n)
        → StandsBetween n f X Y leg.now from.now to.now
        → found ≡ first_failure (arrow_tests n X Y f)) }
{
    let Arrow::Zig {
        heights,
        regs,
        sings,
    } = leg
    else {
        return Ok(bad_pair(alloc, leg, from, to));
    };
    let Diagram::Zig {
        regs: from_regs,
        sings: from_sings,
        ..
    } = from
    else {
        unreachable!()
    };
    let Diagram::Zig {
        regs: to_regs,
        sings: to_sings,
        ..
    } = to
    else {
        unreachable!()
    };
    if !counts_fit(heights, regs, from_sings, to_regs) {
        return Ok(Some(place_here(alloc, End::Ends)));
    }
    if let Some(place) = first_bad_reg(alloc, heights, regs, from_regs, to_regs)? {
        return Ok(Some(place));
    }
    if let Some(place) = first_bad_sing(alloc, heights, sings, from_sings, to_sings)? {
        return Ok(Some(place));
    }
    match first_bad_square_of(alloc, leg, from, to)? {
        None => Ok(None),
        Some(k) => Ok(Some(place_here(alloc, End::Square(k)))),
    }
}

fn bad_pair(alloc: Global, leg: &Arrow, from: &Diagram, to: &Diagram) -> Option<Place>
    requires { (f : Arr 0) × (x : Dia 0) × (y : Dia 0) × StandsBetween 0 f x y leg.now from.now to.now }
    ensures { (f : Arr 0) (x y : Dia 0) → StandsBetween 0 f x y leg.now from.now to.now
        → result ≡ first_failure (arrow_tests 0 x y f) }
{
    if leg_fits(leg, from, to) {
        return None;
    }
    Some(place_here(alloc, End::Ends))
}

#[cycle(arrows_between)]
fn first_bad_reg(
    alloc: Global,
    heights: &[usize],
    regs: &[Arrow],
    from: &[Diagram],
    to: &[Diagram],
) -> Result<Option<Place>, AllocError>
    requires { (d : ℕ) × (f : Arr (suc d)) × (X : Dia (suc d)) × (Y : Dia (suc d))
        × RegsBetween d f X Y heights.now regs.now from.now to.now }
    ensures { IfOk result (λ found. (d : ℕ) (f : Arr (suc d)) (X Y : Dia (suc d))
        → RegsBetween d f X Y heights.now regs.now from.now to.now
        → found ≡ first_failure (reg_tests d X Y f)) }
{
    let mut at = 0;
    for k in 0..to.len() {
        at = dual_from(heights, at, k);
        if let Some(place) = first_bad_in_arrow(alloc, &regs[k], &from[at], &to[k])? {
            return Ok(Some(place_under(alloc, Step::R(k), place)?));
        }
    }
    Ok(None)
}

#[cycle(arrows_between)]
fn first_bad_sing(
    alloc: Global,
    heights: &[usize],
    sings: &[Arrow],
    from: &[Diagram],
    to: &[Diagram],
) -> Result<Option<Place>, AllocError>
    requires { (d : ℕ) × (f : Arr (suc d)) × (X : Dia (suc d)) × (Y : Dia (suc d))
        × SingsBetween d f X Y heights.now sings.now from.now to.now }
    ensures { IfOk result (λ found. (d : ℕ) (f : Arr (suc d)) (X Y : Dia (suc d))
        → SingsBetween d f X Y heights.now sings.now from.now to.now
        → found ≡ first_failure (sing_tests d X Y f)) }
{
    for i in 0..sings.len() {
        let h = heights[i];
        if let Some(place) = first_bad_in_arrow(alloc, &sings[i], &from[i], &to[h])? {
            return Ok(Some(place_under(alloc, Step::S(i), place)?));
        }
    }
    Ok(None)
}
