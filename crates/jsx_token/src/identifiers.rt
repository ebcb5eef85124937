//! Which words may stand where.

ghost use Rattle.std.specs.Prelude.{◌≡◌, ◌∷◌, [], codes, false, filter, map, nat_eq, not, IsTrue, IfSome, IfNone};
ghost use Rattle.std.specs.Str.{chars};
ghost use Rattle.std.specs.Char.{is_ascii_alphabetic};
ghost use Rattle.jsx_base.specs.Token.{IdentifierName, StringLiteral, first_is, same, among};
ghost use Rattle.jsx_tree.specs.Nonterminals as grammar;
ghost use Rattle.jsx_tree.specs.Kinds.{leaf};
ghost use Rattle.jsx_tree.specs.StaticRules.{is_key};
ghost use Rattle.jsx_tree.specs.View.{view_word};
ghost use Rattle.jsx_token.specs.Stage as stage;

use crate::characters::{is_among, is_same};
use jsx_tree::Word;

/// The names that strict mode doesn't bind.
const RESTRICTED: [&str; 2] = ["eval", "arguments"];

/// The words that are no identifier in strict mode (ECMA-262 section 13.1), of those that begin with the byte.
fn reserved_from(first: u8) -> &'static [&'static str]
    ensures { map (λ w. w.now) result.now ≡ filter (first_is (nat_eq first)) grammar.reserved }
{
    match first {
        b'a' => &["await"],
        b'b' => &["break"],
        b'c' => &["case", "catch", "class", "const", "continue"],
        b'd' => &["debugger", "default", "delete", "do"],
        b'e' => &["else", "enum", "export", "extends"],
        b'f' => &["false", "finally", "for", "function"],
        b'i' => &[
            "if",
            "import",
            "in",
            "instanceof",
            "implements",
            "interface",
        ],
        b'l' => &["let"],
        b'n' => &["new", "null"],
        b'p' => &["package", "private", "protected", "public"],
        b'r' => &["return"],
        b's' => &["super", "switch", "static"],
        b't' => &["this", "throw", "true", "try", "typeof"],
        b'v' => &["var", "void"],
        b'w' => &["while", "with"],
        b'y' => &["yield"],
        _ => &[],
    }
}

/// Whether the word is no identifier.
pub fn is_reserved(name: &str) -> bool
    ensures { result ≡ among (chars name.now) grammar.reserved }
{
    match name.as_bytes().first() {
        Some(&first) => is_among(name, reserved_from(first)),
        None => false,
    }
}

fn is_restricted(name: &str) -> bool
    ensures { result ≡ among (chars name.now) (codes "eval" ∷ codes "arguments" ∷ []) }
{
    RESTRICTED.contains(&name)
}

/// Whether a declaration may bind the name.
pub fn is_bound(name: &str) -> bool
    ensures { result ≡ grammar.is_bound (chars name.now) }
{
    !is_reserved(name) && !is_restricted(name)
}

fn has_dash(name: &str) -> bool
    ensures { result ≡ grammar.has_dash (chars name.now) }
{
    name.chars().any(|c| c == '-')
}

fn begins_with_letter(name: &str) -> bool
    ensures { result ≡ first_is is_ascii_alphabetic (chars name.now) }
{
    match name.chars().next() {
        Some(c) => c.is_ascii_alphabetic(),
        None => false,
    }
}

#[inline(always)]
fn is_this(name: &str) -> bool
    ensures { result ≡ same (chars name.now) (codes "this") }
{
    is_same(name, "this")
}

/// Whether the stage takes the name of a tag.
pub fn is_plain_tag(name: &str) -> bool
    ensures { result ≡ stage.is_plain_tag (chars name.now) }
{
    begins_with_letter(name) && !has_dash(name) && !is_this(name)
}

#[inline(always)]
fn is_null(name: &str) -> bool
    ensures { result ≡ same (chars name.now) (codes "null") }
{
    is_same(name, "null")
}

#[inline(always)]
fn is_true(name: &str) -> bool
    ensures { result ≡ same (chars name.now) (codes "true") }
{
    is_same(name, "true")
}

#[inline(always)]
fn is_false(name: &str) -> bool
    ensures { result ≡ same (chars name.now) (codes "false") }
{
    is_same(name, "false")
}

/// The word that is an expression by itself (ECMA-262 sections 13.2.1 and 13.2.3).
#[inline]
pub fn value_word(name: &str) -> Option<Word>
    ensures view { IfSome result (λ w. view_word w ≡ leaf IdentifierName (chars name.now)) }
    ensures value { IfSome result (λ w. IsTrue (grammar.is_value_word (chars name.now))) }
    ensures none { IfNone result (among (chars name.now) (codes "this" ∷ codes "null" ∷ codes "true" ∷ codes "false" ∷ []) ≡ false) }
{
    if is_this(name) {
        return Some(Word::This);
    }
    if is_null(name) {
        return Some(Word::Null);
    }
    if is_true(name) {
        return Some(Word::True);
    }
    if is_false(name) {
        return Some(Word::False);
    }
    None
}

/// Whether a key that is a name sets the prototype: `__proto__` (ECMA-262 section 13.2.5.1).
pub fn is_proto(name: &str) -> bool
    ensures { result ≡ is_key (codes "__proto__") (leaf IdentifierName (chars name.now)) }
{
    is_same(name, "__proto__")
}

/// Whether a key that is a string, with its quotes, does.
pub fn is_proto_string(raw: &str) -> bool
    ensures { result ≡ is_key (codes "__proto__") (leaf StringLiteral (chars raw.now)) }
{
    raw == "\"__proto__\"" || raw == "'__proto__'"
}

/// Whether a key that is a name is `constructor` (ECMA-262 section 15.7.1).
pub fn is_constructor(name: &str) -> bool
    ensures { result ≡ is_key (codes "constructor") (leaf IdentifierName (chars name.now)) }
{
    is_same(name, "constructor")
}

/// Whether a key that is a string, with its quotes, is.
pub fn is_constructor_string(raw: &str) -> bool
    ensures { result ≡ is_key (codes "constructor") (leaf StringLiteral (chars raw.now)) }
{
    raw == "\"constructor\"" || raw == "'constructor'"
}

/// Whether a key that is a name is `prototype` (ECMA-262 section 15.7.1).
pub fn is_prototype(name: &str) -> bool
    ensures { result ≡ is_key (codes "prototype") (leaf IdentifierName (chars name.now)) }
{
    is_same(name, "prototype")
}

/// Whether a key that is a string, with its quotes, is.
pub fn is_prototype_string(raw: &str) -> bool
    ensures { result ≡ is_key (codes "prototype") (leaf StringLiteral (chars raw.now)) }
{
    raw == "\"prototype\"" || raw == "'prototype'"
}
