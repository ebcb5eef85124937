//! The laws of the events by what is asked of places, and of where they are.

ghost use Rattle.std.specs.Prelude.{◌≡◌, ℕ, List};
ghost use Rattle.jsx_base.specs.Token.{Text};
ghost use Rattle.jsx_tree.specs.declared.text.Goal.{Goal};
ghost use Rattle.jsx_tree.specs.declared.program.Program.{Program};
ghost use Rattle.jsx_tree.specs.Kinds.{Tree};
ghost use Rattle.jsx_tree.specs.Normal.{without_parentheses};
ghost use Rattle.jsx_tree.specs.Program.{Reads};
ghost use Rattle.jsx_tree.specs.Spans.{Told, IsTold, placed_in};
ghost use Rattle.jsx_tree.specs.Told.{told};
ghost use Rattle.jsx_tree.specs.ViewProgram.{view};
ghost use Rattle.jsx_names.specs.declared.event.Event.{Event};
ghost use Rattle.jsx_names.specs.Code.{verdict};
ghost use Rattle.jsx_names.specs.Heard.{heard_in};
ghost use Rattle.jsx_heard.specs.Bytes.{events_of};
ghost use Rattle.jsx_heard.specs.Early.{Early};
ghost use Rattle.jsx_heard.specs.Said.{met_all, of_program};

/// What is said of a tree by what is asked of its places is what is heard of it by the rows of the grammar, whatever is told of
/// places.
pub fn said_is_heard()
    ensures { (t : Tree) (d : Told) → events_of (of_program t d) ≡ heard_in t }
{}

/// The program that a text reads as, without its parentheses, has its first early error on names (ECMA-262 sections 14.2.1, 14.7,
/// 14.12.1, 14.15.1, 15.1.1, 15.2.1, 16.1.1 and 16.2.1), or else its first direct call of `eval` (section 13.3.6.1), where the
/// verdict on its events says: at that byte, where all that it tells of places is so.
pub fn early_in_place()
    ensures { (goal : Goal) (text : Text) (from : ℕ) (w : Tree) (p : Program) (es : List Event) → Reads goal text w → view p ≡ without_parentheses w → IsTold (told p) (placed_in from text w) → met_all es ≡ of_program (view p) (told p) → Early (view p) (placed_in from text w) (verdict es) }
{}
