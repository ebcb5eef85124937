//! Members of objects and classes. A member is as deep in either.

ghost use Rattle.std.specs.Prelude.{◌≡◌, map};
ghost use Rattle.jsx_tree.specs.Kinds.{list};
ghost use Rattle.jsx_tree.specs.View.{OfObject, OfClass, inside, members_of_class, members_of_object, view_member};
ghost use Rattle.jsx_depth.specs.Fits.{counts_tree, fits, fits_inside};

use crate::expressions::{fits_expr, fits_optional};
use crate::level::{has_level, within};
use crate::patterns::{fits_key, fits_pattern, fits_patterns};
use crate::statements::fits_body;
use jsx_tree::Prop;

#[tactic(auto, using(crate::proofs::Depths::depths))]
fn counts_member(member: &Prop) -> bool
    ensures of_object { result ≡ counts_tree (view_member member.now OfObject) }
    ensures of_class { result ≡ counts_tree (view_member member.now OfClass) }
{
    match member {
        Prop::Spread(..) => false,
        Prop::Pair(..)
        | Prop::Shorthand(..)
        | Prop::Method(..)
        | Prop::Getter(..)
        | Prop::Setter(..)
        | Prop::Field(..) => true,
    }
}

#[cycle(depth)]
#[tactic(auto, using(crate::proofs::Depths::depths))]
fn parts_of_member(member: &Prop, levels: u32) -> bool
    ensures of_object { result ≡ fits_inside levels (view_member member.now OfObject) }
    ensures of_class { result ≡ fits_inside levels (view_member member.now OfClass) }
{
    match member {
        Prop::Pair(_, key, value) => fits_key(key, levels) && fits_expr(value, levels),
        Prop::Shorthand(..) => has_level(levels),
        Prop::Spread(_, value) => fits_expr(value, levels),
        Prop::Method(_, _, key, parameters, directives, body) => {
            fits_key(key, levels)
                && fits_patterns(parameters, levels)
                && fits_body(directives, body, levels)
        }
        Prop::Getter(_, _, key, directives, body) => {
            fits_key(key, levels) && fits_body(directives, body, levels)
        }
        Prop::Setter(_, _, key, parameter, directives, body) => {
            fits_key(key, levels)
                && fits_pattern(parameter, levels)
                && fits_body(directives, body, levels)
        }
        Prop::Field(_, _, key, value) => fits_key(key, levels) && fits_optional(value, levels),
    }
}

#[cycle(depth)]
#[tactic(auto, using(crate::proofs::Depths::nodes))]
fn fits_member(member: &Prop, levels: u32) -> bool
    ensures of_object { result ≡ fits levels (view_member member.now OfObject) }
    ensures of_class { result ≡ fits levels (view_member member.now OfClass) }
{
    match within(counts_member(member), levels) {
        Some(inside) => parts_of_member(member, inside),
        None => false,
    }
}

#[cycle(depth)]
pub(crate) fn fits_members(members: &[Box<Prop<'_>>], levels: u32) -> bool
    ensures of_object { result ≡ fits levels (list (members_of_object (map (inside view_member) members.now))) }
    ensures of_class { result ≡ fits levels (list (members_of_class (map (inside view_member) members.now))) }
{
    for member in members {
        if !fits_member(member, levels) {
            return false;
        }
    }
    true
}
