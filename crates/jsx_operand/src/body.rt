//! The body of a function, as it is read: what its directives say of it (ECMA-262 sections 11.2.1 and 15.2).

ghost use Rattle.std.specs.Prelude.{◌≡◌, [], ◌∷◌, codes, map, nat_le};
ghost use Rattle.std.specs.Str.{chars};
ghost use Rattle.jsx_base.specs.Token.{among};
ghost use Rattle.jsx_tree.specs.StaticRules.{count_of, is_strict_body, is_strict_directive};
ghost use Rattle.jsx_tree.specs.View.{directive, forest};
ghost use Rattle.jsx_operand.specs.Bodies.{view_body};

use jsx_tree::{Stmt, Text};

/// The body of a function, without its braces: its directives, each the text of a string, and its statements.
#[derive(Drop)]
pub struct Body<'s> {
    pub directives: Vec<Text<'s>>,
    pub statements: Vec<Box<Stmt<'s>>>,
}

/// The directive that makes code strict, with either quotes.
const USE_STRICT: [&str; 2] = ["\"use strict\"", "'use strict'"];

fn is_use_strict(raw: &str) -> bool
    ensures { result ≡ among (chars raw.now) (codes "\"use strict\"" ∷ codes "'use strict'" ∷ []) }
{
    USE_STRICT.contains(&raw)
}

/// Whether a directive makes code strict: as it is written, with no escape.
fn is_strict_directive(text: &Text) -> bool
    ensures { result ≡ is_strict_directive (directive text.now) }
{
    match text {
        Text::Read(raw, _) => is_use_strict(raw),
        Text::Made(made, _) => is_use_strict(made),
    }
}

/// Whether one of some directives makes code strict.
pub(crate) fn makes_strict(directives: &[Text]) -> bool
    ensures { result ≡ nat_le 1 (count_of is_strict_directive (forest (map directive directives.now))) }
{
    directives.iter().any(is_strict_directive)
}

impl<'s> Body<'s> {
    /// Whether a directive of its own makes it strict code.
    pub fn is_strict(&self) -> bool
        ensures { result ≡ is_strict_body (view_body self.now) }
    {
        makes_strict(&self.directives)
    }
}
