ghost use Rattle.std.specs.Prelude.{◌≡◌, ◌↔◌, ℕ, suc, List, length, IfOk, None};
ghost use Rattle.diagram_terms.specs.Decoded.{dia};
ghost use Rattle.diagram_terms.specs.Family.{Dia};
ghost use Rattle.diagram_terms.specs.Levels.{HoldsLegs, HoldsSlices, reg_slice_tests, sing_slice_tests};
ghost use Rattle.diagram_terms.specs.Places.{at_each, first_bad_place, first_failure, leg_tests};
ghost use Rattle.diagram_terms.specs.Shape.{IsDiagram};
ghost use Rattle.diagram_terms.specs.Valid.{Valid};
ghost use Rattle.diagram_terms.specs.Values.{tree_of_diagram};

use crate::bad_arrow::first_bad_in_arrow;
use crate::place::{Place, Step, place_under};
use crate::tree::{Arrow, Diagram};
use std::alloc::{AllocError, Global};

/// The first place at which a diagram is not valid: an arrow whose lengths are not those of its
/// ends, or that is no ordered pair of labels, or a square that does not commute. There is none
/// exactly where the diagram is valid.
///
/// It takes a shared part apart as often as it is used.
pub fn first_bad_square(alloc: Global, d: &Diagram) -> Result<Option<Place>, AllocError>
    requires { (n : ℕ) × IsDiagram n (tree_of_diagram d.now) }
    ensures place { IfOk result (λ found. (n : ℕ) → IsDiagram n (tree_of_diagram d.now)
        → found ≡ first_bad_place n (dia n (tree_of_diagram d.now))) }
    ensures none { IfOk result (λ found. (n : ℕ) → IsDiagram n (tree_of_diagram d.now)
        → ((found ≡ None) ↔ Valid n (dia n (tree_of_diagram d.now)))) }
{
    first_bad_in_diagram(alloc, d)
}

#[cycle(bad_squares)]
fn first_bad_in_diagram(alloc: Global, d: &Diagram) -> Result<Option<Place>, AllocError>
    requires { (n : ℕ) × IsDiagram n (tree_of_diagram d.now) }
    ensures { IfOk result (λ found. (n : ℕ) → IsDiagram n (tree_of_diagram d.now)
        → found ≡ first_bad_place n (dia n (tree_of_diagram d.now))) }
{
    let Diagram::Zig {
        regs,
        sings,
        fwds,
        bwds,
    } = d
    else {
        return Ok(None);
    };
    if let Some(place) = first_bad_reg_slice(alloc, regs)? {
        return Ok(Some(place));
    }
    if let Some(place) = first_bad_sing_slice(alloc, sings)? {
        return Ok(Some(place));
    }
    first_bad_leg(alloc, regs, sings, fwds, bwds)
}

#[cycle(bad_squares)]
fn first_bad_reg_slice(alloc: Global, slices: &[Diagram]) -> Result<Option<Place>, AllocError>
    requires { (d : ℕ) × (Xs : List (Dia d)) × HoldsSlices d Xs slices.now }
    ensures { IfOk result (λ found. (d : ℕ) (Xs : List (Dia d)) → HoldsSlices d Xs slices.now
        → found ≡ first_failure (reg_slice_tests d Xs)) }
{
    for j in 0..slices.len() {
        if let Some(place) = first_bad_in_diagram(alloc, &slices[j])? {
            return Ok(Some(place_under(alloc, Step::R(j), place)?));
        }
    }
    Ok(None)
}

#[cycle(bad_squares)]
fn first_bad_sing_slice(alloc: Global, slices: &[Diagram]) -> Result<Option<Place>, AllocError>
    requires { (d : ℕ) × (Xs : List (Dia d)) × HoldsSlices d Xs slices.now }
    ensures { IfOk result (λ found. (d : ℕ) (Xs : List (Dia d)) → HoldsSlices d Xs slices.now
        → found ≡ first_failure (sing_slice_tests d Xs)) }
{
    for i in 0..slices.len() {
        if let Some(place) = first_bad_in_diagram(alloc, &slices[i])? {
            return Ok(Some(place_under(alloc, Step::S(i), place)?));
        }
    }
    Ok(None)
}

fn first_bad_leg(
    alloc: Global,
    regs: &[Diagram],
    sings: &[Diagram],
    fwds: &[Arrow],
    bwds: &[Arrow],
) -> Result<Option<Place>, AllocError>
    requires { (d : ℕ) × (X : Dia (suc d)) × HoldsLegs d X regs.now sings.now fwds.now bwds.now }
    ensures { IfOk result (λ found. (d : ℕ) (X : Dia (suc d))
        → HoldsLegs d X regs.now sings.now fwds.now bwds.now
        → found ≡ first_failure (at_each (length X.sings) (leg_tests d X))) }
{
    for k in 0..sings.len() {
        if let Some(place) = first_bad_in_arrow(alloc, &fwds[k], &regs[k], &sings[k])? {
            return Ok(Some(place_under(alloc, Step::F(k), place)?));
        }
        if let Some(place) = first_bad_in_arrow(alloc, &bwds[k], &regs[k + 1], &sings[k])? {
            return Ok(Some(place_under(alloc, Step::B(k), place)?));
        }
    }
    Ok(None)
}
