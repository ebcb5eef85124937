//! The members of an object that set its prototype: `__proto__: a` (ECMA-262 section 13.2.5.1).

ghost use Rattle.std.specs.Prelude.{◌≡◌, ◌&&◌, ◌||◌, codes, map, not};
ghost use Rattle.jsx_tree.specs.Kinds.{leaf};
ghost use Rattle.jsx_tree.specs.StaticRules.{at_most, is_key, is_proto};
ghost use Rattle.jsx_tree.specs.View.{forest, inside, kind_of_literal, text_of, view_key};
ghost use Rattle.jsx_base.specs.Token.{IdentifierName};
ghost use Rattle.jsx_make.specs.Members.{view_prop};

use jsx_token::{is_proto, is_proto_string};
use jsx_tree::{Key, LiteralKind, Prop, Text};

fn is_proto_name(name: &Text) -> bool
    ensures { result ≡ is_key (codes "__proto__") (leaf IdentifierName (text_of name.now)) }
{
    match name {
        Text::Read(raw, _) => is_proto(raw),
        Text::Made(made, _) => is_proto(made),
    }
}

fn is_proto_literal(kind: LiteralKind, text: &Text) -> bool
    ensures { result ≡ is_key (codes "__proto__") (leaf (kind_of_literal kind) (text_of text.now)) }
{
    if kind != LiteralKind::Str {
        return false;
    }
    match text {
        Text::Read(raw, _) => is_proto_string(raw),
        Text::Made(made, _) => is_proto_string(made),
    }
}

fn is_proto_key(key: &Key) -> bool
    ensures { result ≡ is_key (codes "__proto__") (view_key key.now) }
{
    match key {
        Key::Name(name) => is_proto_name(name),
        Key::Literal(kind, text) => is_proto_literal(*kind, text),
        Key::Computed(_, _) => false,
    }
}

/// Whether a member is `__proto__: a`.
fn sets_proto(member: &Prop) -> bool
    ensures { result ≡ is_proto (view_prop member.now) }
{
    match member {
        Prop::Pair(_, key, _) => is_proto_key(key),
        Prop::Shorthand(_, _) => false,
        Prop::Spread(_, _) => false,
        Prop::Method(_, _, _, _, _, _) => false,
        Prop::Getter(_, _, _, _, _) => false,
        Prop::Setter(_, _, _, _, _, _) => false,
        Prop::Field(_, _, _, _) => false,
    }
}

/// Whether one of some members is `__proto__: a`, with a further one.
fn has_proto(had_proto: bool, member: &Prop) -> bool
    ensures { result ≡ (had_proto || is_proto (view_prop member.now)) }
{
    had_proto || sets_proto(member)
}

/// Whether the further one is the second.
fn is_second(had_proto: bool, member: &Prop) -> bool
    ensures { result ≡ (had_proto && is_proto (view_prop member.now)) }
{
    had_proto && sets_proto(member)
}

/// Whether more than one of these members is.
pub fn has_two_protos(members: &[Box<Prop>]) -> bool
    ensures { result ≡ not (at_most 1 is_proto (forest (map (inside view_prop) members.now))) }
{
    let mut had_proto = false;
    for (i, member) in members.iter().enumerate() {
        if is_second(had_proto, member) {
            return true;
        }
        had_proto = has_proto(had_proto, member);
    }
    false
}
