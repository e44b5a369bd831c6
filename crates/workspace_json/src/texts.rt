ghost use Rattle.std.specs.Prelude.{◌≡◌, ℕ, List, [], ◌∷◌, ◌++◌, length, IfOk, map, string_bytes};
ghost use Rattle.workspace_json.specs.Paths.{height_text};
ghost use Rattle.workspace_json.specs.Places.{step_text, end_text, place_text, spaced, fault_word, fault_place};

use diagram_terms::{End, Fault, Height, Place, Step};
use std::alloc::{AllocError, Global};

fn step_text(alloc: Global, step: Step) -> Result<String, AllocError>
    ensures { IfOk result (λ text. string_bytes text ≡ step_text step) }
{
    match step {
        Step::SourceEnd => String::from_str(alloc, "source"),
        Step::TargetEnd => String::from_str(alloc, "target"),
        Step::R(slice) => format!(in alloc; "r{slice}"),
        Step::S(slice) => format!(in alloc; "s{slice}"),
        Step::F(height) => format!(in alloc; "f{height}"),
        Step::B(height) => format!(in alloc; "b{height}"),
    }
}

fn end_text(alloc: Global, end: End) -> Result<String, AllocError>
    ensures { IfOk result (λ text. string_bytes text ≡ end_text end) }
{
    match end {
        End::Ends => String::from_str(alloc, "ends"),
        End::Square(height) => format!(in alloc; "q{height}"),
    }
}

/// The steps of a place and what fails there, with one space between them.
pub(crate) fn place_text(alloc: Global, place: &Place) -> Result<String, AllocError>
    ensures { IfOk result (λ text. string_bytes text ≡ place_text place.now) }
{
    let mut text = String::new(alloc);
    for step in place.steps.as_slice() {
        text.push_str(step_text(alloc, *step)?.as_str())?;
        text.push_str(" ")?;
    }
    text.push_str(end_text(alloc, place.end)?.as_str())?;
    Ok(text)
}

fn height_text(alloc: Global, height: Height) -> Result<String, AllocError>
    ensures { IfOk result (λ text. string_bytes text ≡ height_text height) }
{
    match height {
        Height::R(slice) => format!(in alloc; "r{slice}"),
        Height::S(slice) => format!(in alloc; "s{slice}"),
    }
}

/// Puts a text after those before it, of which there are `before`, with one space between two.
fn push_spaced(text: &mut String, before: usize, next: &str) -> Result<(), AllocError>
    ensures { IfOk result (λ done. (texts : List (List ℕ)) → length texts ≡ before
        → string_bytes text.old ≡ spaced texts → string_bytes text.new ≡ spaced (texts ++ next.now ∷ [])) }
{
    if before > 0 {
        text.push_str(" ")?;
    }
    text.push_str(next)?;
    Ok(())
}

/// The steps that lead to a leg, with one space between them.
fn steps_text(alloc: Global, steps: &[Step]) -> Result<String, AllocError>
    ensures { IfOk result (λ text. string_bytes text ≡ spaced (map step_text steps.now)) }
{
    let mut text = String::new(alloc);
    for (at, step) in steps.iter().enumerate() {
        push_spaced(&mut text, at, step_text(alloc, *step)?.as_str())?;
    }
    Ok(text)
}

/// The heights of a point, with one space between them.
fn point_text(alloc: Global, heights: &[Height]) -> Result<String, AllocError>
    ensures { IfOk result (λ text. string_bytes text ≡ spaced (map height_text heights.now)) }
{
    let mut text = String::new(alloc);
    for (at, height) in heights.iter().enumerate() {
        push_spaced(&mut text, at, height_text(alloc, *height)?.as_str())?;
    }
    Ok(text)
}

/// The text of the place of a fault.
pub(crate) fn fault_place(alloc: Global, fault: &Fault) -> Result<String, AllocError>
    ensures { IfOk result (λ text. string_bytes text ≡ fault_place fault.now) }
{
    match fault {
        Fault::SquareAt(place) => place_text(alloc, place),
        Fault::LooseAt(steps) => steps_text(alloc, steps.as_slice()),
        Fault::LabelAt(point) | Fault::TypeAt(point) => point_text(alloc, point.as_slice()),
    }
}

/// The word of a fault.
pub(crate) fn fault_word(fault: &Fault) -> &'static str
    ensures { result.now ≡ fault_word fault.now }
{
    match fault {
        Fault::SquareAt(_) => "square",
        Fault::LooseAt(_) => "loose",
        Fault::LabelAt(_) => "label",
        Fault::TypeAt(_) => "type",
    }
}
