//! The names that the members of a class may have (ECMA-262 section 15.7.1).

ghost use Rattle.std.specs.Prelude.{◌≡◌, ◌&&◌, ◌||◌, codes, map, not};
ghost use Rattle.jsx_base.specs.Token.{IdentifierName};
ghost use Rattle.jsx_tree.specs.Kinds.{leaf};
ghost use Rattle.jsx_tree.specs.StaticRules.{all_of, at_most, is_constructor, is_good_member, is_key, members_rule};
ghost use Rattle.jsx_tree.specs.View.{OfClass, forest, holder_of, inside, kind_of_literal, text_of, view_key};
ghost use Rattle.jsx_make.specs.Members.{view_class_member};
ghost use Rattle.jsx_operand.specs.Members.{good_accessor, good_field, good_method, is_own};

use jsx_token::{is_constructor, is_constructor_string, is_prototype, is_prototype_string};
use jsx_tree::{Key, LiteralKind, Placement, Prop, Text};

fn is_constructor_name(name: &Text) -> bool
    ensures { result ≡ is_key (codes "constructor") (leaf IdentifierName (text_of name.now)) }
{
    match name {
        Text::Read(raw, _) => is_constructor(raw),
        Text::Made(made, _) => is_constructor(made),
    }
}

fn is_constructor_literal(kind: LiteralKind, text: &Text) -> bool
    ensures { result ≡ is_key (codes "constructor") (leaf (kind_of_literal kind) (text_of text.now)) }
{
    if kind != LiteralKind::Str {
        return false;
    }
    match text {
        Text::Read(raw, _) => is_constructor_string(raw),
        Text::Made(made, _) => is_constructor_string(made),
    }
}

/// Whether a key is `constructor`, plain or quoted.
pub fn is_constructor_key(key: &Key) -> bool
    ensures { result ≡ is_key (codes "constructor") (view_key key.now) }
{
    match key {
        Key::Name(name) => is_constructor_name(name),
        Key::Literal(kind, text) => is_constructor_literal(*kind, text),
        Key::Computed(_, _) => false,
    }
}

fn is_prototype_name(name: &Text) -> bool
    ensures { result ≡ is_key (codes "prototype") (leaf IdentifierName (text_of name.now)) }
{
    match name {
        Text::Read(raw, _) => is_prototype(raw),
        Text::Made(made, _) => is_prototype(made),
    }
}

fn is_prototype_literal(kind: LiteralKind, text: &Text) -> bool
    ensures { result ≡ is_key (codes "prototype") (leaf (kind_of_literal kind) (text_of text.now)) }
{
    if kind != LiteralKind::Str {
        return false;
    }
    match text {
        Text::Read(raw, _) => is_prototype_string(raw),
        Text::Made(made, _) => is_prototype_string(made),
    }
}

fn is_prototype_key(key: &Key) -> bool
    ensures { result ≡ is_key (codes "prototype") (view_key key.now) }
{
    match key {
        Key::Name(name) => is_prototype_name(name),
        Key::Literal(kind, text) => is_prototype_literal(*kind, text),
        Key::Computed(_, _) => false,
    }
}

fn suits_method(placement: Placement, key: &Key) -> bool
    ensures { result ≡ good_method (holder_of OfClass placement) (view_key key.now) }
{
    match placement {
        Placement::Instance => true,
        Placement::Static => !is_prototype_key(key),
    }
}

fn suits_accessor(placement: Placement, key: &Key) -> bool
    ensures { result ≡ good_accessor (holder_of OfClass placement) (view_key key.now) }
{
    match placement {
        Placement::Instance => !is_constructor_key(key),
        Placement::Static => !is_prototype_key(key),
    }
}

fn suits_field(placement: Placement, key: &Key) -> bool
    ensures { result ≡ good_field (holder_of OfClass placement) (view_key key.now) }
{
    match placement {
        Placement::Instance => !is_constructor_key(key),
        Placement::Static => !is_constructor_key(key) && !is_prototype_key(key),
    }
}

/// Whether a member of a class has a name that it may have.
#[tactic(auto, using(crate::proofs::MemberNames::membering))]
fn is_good(member: &Prop) -> bool
    ensures { result ≡ is_good_member (view_class_member member.now) }
{
    match member {
        Prop::Pair(_, _, _) => true,
        Prop::Shorthand(_, _) => true,
        Prop::Spread(_, _) => true,
        Prop::Method(_, placement, key, _, _, _) => suits_method(*placement, key),
        Prop::Getter(_, placement, key, _, _) => suits_accessor(*placement, key),
        Prop::Setter(_, placement, key, _, _, _) => suits_accessor(*placement, key),
        Prop::Field(_, placement, key, _) => suits_field(*placement, key),
    }
}

fn names_constructor(placement: Placement, key: &Key) -> bool
    ensures { result ≡ (is_own placement && is_key (codes "constructor") (view_key key.now)) }
{
    match placement {
        Placement::Instance => is_constructor_key(key),
        Placement::Static => false,
    }
}

/// Whether a member of a class is its constructor.
#[tactic(auto, using(crate::proofs::MemberNames::membering))]
fn constructs(member: &Prop) -> bool
    ensures { result ≡ is_constructor (view_class_member member.now) }
{
    match member {
        Prop::Method(_, placement, key, _, _, _) => names_constructor(*placement, key),
        Prop::Pair(_, _, _) => false,
        Prop::Shorthand(_, _) => false,
        Prop::Spread(_, _) => false,
        Prop::Getter(_, _, _, _, _) => false,
        Prop::Setter(_, _, _, _, _, _) => false,
        Prop::Field(_, _, _, _) => false,
    }
}

/// Whether one of some members is the constructor, with a further one.
fn has_constructor(had_constructor: bool, member: &Prop) -> bool
    ensures { result ≡ (had_constructor || is_constructor (view_class_member member.now)) }
{
    had_constructor || constructs(member)
}

/// Whether the further one is the second.
fn is_second(had_constructor: bool, member: &Prop) -> bool
    ensures { result ≡ (had_constructor && is_constructor (view_class_member member.now)) }
{
    had_constructor && constructs(member)
}

/// Whether more than one of these members is.
fn has_two_constructors(members: &[Box<Prop>]) -> bool
    ensures { result ≡ not (at_most 1 is_constructor (forest (map (inside view_class_member) members.now))) }
{
    let mut had_constructor = false;
    for (i, member) in members.iter().enumerate() {
        if is_second(had_constructor, member) {
            return true;
        }
        had_constructor = has_constructor(had_constructor, member);
    }
    false
}

/// Whether a member in a box has a name that it may not have.
fn is_misnamed(member: &Box<Prop>) -> bool
    ensures { result ≡ not (is_good_member (inside view_class_member member.now)) }
{
    !is_good(member)
}

/// Whether one of these members has such a name.
fn has_misnamed(members: &[Box<Prop>]) -> bool
    ensures { result ≡ not (all_of is_good_member (forest (map (inside view_class_member) members.now))) }
{
    members.iter().any(is_misnamed)
}

/// Whether these are members of one class: with one constructor at most, and names that they may have.
pub fn are_members(members: &[Box<Prop>]) -> bool
    ensures { result ≡ members_rule (forest (map (inside view_class_member) members.now)) }
{
    !has_two_constructors(members) && !has_misnamed(members)
}
