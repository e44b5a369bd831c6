ghost use Rattle.std.specs.Prelude.{◌≡◌, [], ◌∷◌, IfSome, IsSome, map, option_and_then, string_bytes};
ghost use Rattle.hom_run.specs.Full.{mode_of};
ghost use Rattle.hom_run.specs.Modes.{mode_in};

use workspace_json::is_path;

/// What may be asked of a document.
#[derive(Clone, Copy, Debug)]
pub(crate) enum Query<'w> {
    /// A line for each diagram.
    Look,
    /// The slice of the diagram of this name along the path that this text is.
    Slice { name: &'w str, path: &'w str },
    /// The normal form of the diagram of this name, or of the target of the map of this name.
    Normalise { name: &'w str },
}

/// What the words of a run ask for.
#[derive(Clone, Copy, Debug)]
pub(crate) enum Asked<'w> {
    /// What a document says to a query.
    Document(Query<'w>),
    /// A line for each command of a session.
    Replay,
}

/// What a word and a name ask for, where they are a form of the program.
fn asked_of_name<'w>(word: &str, name: &'w str) -> Option<Asked<'w>>
    ensures mode { mode_of (word.now ∷ name.now ∷ []) ≡ option_and_then mode_in result }
    ensures form { IfSome result (λ asked. IsSome (mode_in asked)) }
{
    if word == "normalise" {
        Some(Asked::Document(Query::Normalise { name }))
    } else {
        None
    }
}

/// What these words ask for, where they are a form of the program.
pub(crate) fn asked_of(words: &[String]) -> Option<Asked<'_>>
    ensures mode { mode_of (map string_bytes words.now) ≡ option_and_then mode_in result }
    ensures form { IfSome result (λ asked. IsSome (mode_in asked)) }
{
    match words {
        [word] if word.as_str() == "look" => Some(Asked::Document(Query::Look)),
        [word] if word.as_str() == "replay" => Some(Asked::Replay),
        [word, name] => asked_of_name(word.as_str(), name.as_str()),
        [word, name, path] if word.as_str() == "slice" && is_path(path.as_str()) => Some(
            Asked::Document(Query::Slice {
                name: name.as_str(),
                path: path.as_str(),
            }),
        ),
        _ => None,
    }
}
