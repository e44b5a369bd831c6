ghost use Rattle.std.specs.Prelude.{List};
ghost use Rattle.diagram_terms.specs.CompletionLaws.{ListsEachOnce};
ghost use Rattle.diagram_terms.specs.Tree.{Tree};

/// A listing has each subtree of its roots, and no other tree, and has it once.
#[tactic(auto, using(diagram_terms::proofs::Completions::lists_each_once))]
pub fn lists_each_once()
    ensures { (roots : List Tree) → ListsEachOnce roots }
{}
