//! Laws of the definitions: how many trees a text has.

ghost use Rattle.std.specs.Prelude.{◌≡◌};
ghost use Rattle.jsx_base.specs.Token.{Text};
ghost use Rattle.jsx_tree.specs.declared.text.Goal.{Goal};
ghost use Rattle.jsx_tree.specs.Kinds.{Tree};
ghost use Rattle.jsx_tree.specs.Program.{Reads};

/// A text has one tree at most.
pub fn one_tree()
    ensures { (goal : Goal) (text : Text) (t u : Tree) → Reads goal text t → Reads goal text u → t ≡ u }
{}
