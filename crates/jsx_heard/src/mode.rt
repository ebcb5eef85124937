//! As what names stand at a place.

ghost use Rattle.std.specs.Prelude.{◌≡◌};
ghost use Rattle.jsx_tree.specs.Scopes as scopes;
ghost use Rattle.jsx_tree.specs.View.{word_of};
ghost use Rattle.jsx_names.specs.Code.{sort_of};
ghost use Rattle.jsx_names.specs.Events as events;
ghost use Rattle.jsx_heard.specs.Code.{exporting, way_of};

use jsx_names::Sort;
use jsx_tree::DeclareWord;

/// How a name is declared.
#[derive(Clone, Copy)]
pub enum Way {
    Simply,
    /// Behind `export`.
    Exported,
    /// Among parameters, or in the pattern of a catch clause.
    InHead,
}

/// Whether the names of a pattern are declared.
#[derive(Clone, Copy)]
pub enum Mode {
    /// They are assigned to.
    Plain,
    /// They stand in parentheses where names are declared. No text reads so.
    Enclosed,
    Binding(Way, Sort),
}

/// As what `var`, `let` and `const` declare (ECMA-262 section 14.3).
pub(crate) fn sort_of(word: DeclareWord) -> Sort
    ensures { sort_of result ≡ scopes.sort_of (word_of word) }
{
    match word {
        DeclareWord::Var => Sort::Var,
        DeclareWord::Let | DeclareWord::Const => Sort::Lexical,
    }
}

/// How a declaration declares.
pub(crate) fn way_of(is_exported: bool) -> Way
    ensures { way_of result ≡ events.way (exporting is_exported) }
{
    if is_exported {
        Way::Exported
    } else {
        Way::Simply
    }
}
