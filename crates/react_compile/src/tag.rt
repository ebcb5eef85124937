//! Tags: which are strings, and which are references (JSX specification; React's `createElement`).

ghost use Rattle.std.specs.Prelude.{◌≡◌, codes};
ghost use Rattle.std.specs.Str.{chars};
ghost use Rattle.jsx_base.specs.Token.{same, first_is};
ghost use Rattle.jsx_tree.specs.Nonterminals.{has_dash};
ghost use Rattle.react_compile.specs.Element.{is_lower};
ghost use Rattle.react_compile.specs.Lowering.{is_string_tag};

fn is_this(name: &str) -> bool
    ensures { result ≡ same (chars name.now) (codes "this") }
{
    name == "this"
}

fn begins_lower(name: &str) -> bool
    ensures { result ≡ first_is is_lower (chars name.now) }
{
    matches!(name.chars().next(), Some('a'..='z'))
}

fn has_dash(name: &str) -> bool
    ensures { result ≡ has_dash (chars name.now) }
{
    name.chars().any(|c| c == '-')
}

/// Whether a tag is a string, as in `<div/>`, and not a reference, as in `<Foo/>`.
pub(crate) fn is_string_tag(name: &str) -> bool
    ensures { result ≡ is_string_tag (chars name.now) }
{
    !is_this(name) && (begins_lower(name) || has_dash(name))
}
