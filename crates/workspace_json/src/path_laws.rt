ghost use Rattle.std.specs.Prelude.{◌≡◌, ◌↔◌, ℕ, List, Some};
ghost use Rattle.diagram_terms.specs.declared.place.Height.{Height};
ghost use Rattle.workspace_json.specs.Paths.{height_in, path_in, IsHeightText, IsPathText};

/// A word is read as a height, or as a path, exactly if it is the text of that one.
pub fn paths_are_told_by_their_text()
    ensures heights { (w : List ℕ) (h : Height) → (height_in w ≡ Some h) ↔ IsHeightText w h }
    ensures paths { (w : List ℕ) (hs : List Height) → (path_in w ≡ Some hs) ↔ IsPathText w hs }
{}
