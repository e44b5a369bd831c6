ghost use Rattle.std.specs.Prelude.{◌≡◌};
ghost use Rattle.node_json.specs.declared.fault.FormFault.TheVariants.{NoMemory};

use std::alloc::{AllocError, AllocFailed};

/// The field that has a wrong form.
#[derive(Clone, Copy, Debug, PartialEq, Eq)]
pub enum Field {
    Document,
    Format,
    Nodes,
    Generators,
    Diagrams,
    Maps,
    Command,
    Do,
    Name,
    Source,
    Target,
    Arrow,
    Of,
    Side,
    Path,
    First,
    Then,
    Legs,
    One,
    Two,
}

/// Why bytes are no document, or no command.
#[derive(Clone, Copy, Debug, PartialEq, Eq)]
pub enum FormFault {
    /// They are not JSON.
    NotJson,
    /// A field has a wrong form: as a whole, or in this entry of its list.
    Form { field: Field, entry: Option<usize> },
    /// The node at this place has a wrong form.
    Shape(usize),
    /// The node at this place names one that is not before it.
    Early(usize),
    /// The node at this place has a label beyond the limits.
    Label(usize),
    /// There was no memory to read them.
    NoMemory,
}

impl From<AllocError> for FormFault {
    ghost from_gives = { λ _ e. e ≡ NoMemory };

    fn from(_e: AllocError) -> FormFault {
        FormFault::NoMemory
    }
}

impl<T: Drop> From<AllocFailed<T>> for FormFault {
    ghost from_gives = { λ _ e. e ≡ NoMemory };

    fn from(_e: AllocFailed<T>) -> FormFault {
        FormFault::NoMemory
    }
}
