use block_lists::Lists;
use diagram_terms::Label;
use std::marker::Model;

/// One of some lists, as a list of numbers.
#[derive(Drop)]
pub(crate) struct Held<'a> {
    lists: &'a Lists,
    number: usize,
}

impl<'a> Model for Held<'a> {
    ghost use Rattle.std.specs.Prelude.{ℕ, ◌<◌, List, [], length, get_or};

    ghost Value = { List ℕ };

    ghost view = { λ h. get_or h.lists.now h.number [] };

    ghost invariant = { λ h. h.number < length h.lists.now };
}

impl<'a> Held<'a> {
    ghost use Rattle.std.specs.Prelude.{◌≡◌, ◌<◌, [], length, get_or, slice_index};

    /// The list with a number.
    pub(crate) fn new(lists: &'a Lists, number: usize) -> Held<'a>
        requires { number < length lists.now }
        ensures { result ≡ get_or lists.now number [] }
    {
        Held { lists, number }
    }

    /// The length.
    pub(crate) fn len(&self) -> usize
        ensures { result ≡ length self.now }
    {
        self.lists.len(self.number)
    }

    /// An entry.
    pub(crate) fn at(&self, at: usize) -> usize
        requires { at < length self.now }
        ensures { result ≡ slice_index self.now at }
    {
        self.lists.at(self.number, at)
    }
}

/// A diagram that a store holds, by the ids of its slices and legs.
#[derive(Drop)]
pub(crate) enum DiagramView<'a> {
    Zero(Label),
    Zig {
        regs: Held<'a>,
        sings: Held<'a>,
        fwds: Held<'a>,
        bwds: Held<'a>,
    },
}

/// An arrow that a store holds, by its heights and the ids of its slices.
#[derive(Drop)]
pub(crate) enum ArrowView<'a> {
    Zero(Label, Label),
    Zig {
        heights: Held<'a>,
        regs: Held<'a>,
        sings: Held<'a>,
    },
}
