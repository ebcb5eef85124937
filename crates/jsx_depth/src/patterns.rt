//! Patterns and keys. A pattern is as deep where it binds as where it assigns.

ghost use Rattle.std.specs.Prelude.{◌≡◌, map};
ghost use Rattle.jsx_tree.specs.Kinds.{Binds, Assigns, list};
ghost use Rattle.jsx_tree.specs.View.{inside, forest_at, optional_at_of, optional_of, view_expr, view_key, view_pattern};
ghost use Rattle.jsx_depth.specs.Fits.{counts_tree, fits, fits_inside, fits_default, short_inside};

use crate::expressions::{counts_expr, fits_expr, fits_optional, parts_of_expr};
use crate::level::{has_level, within};
use jsx_tree::{Expr, Key, Pat};

/// A key, which doesn't count.
#[cycle(depth)]
#[tactic(auto, using(crate::proofs::Depths::depths))]
pub(crate) fn fits_key(key: &Key, levels: u32) -> bool
    ensures { result ≡ fits levels (view_key key.now) }
{
    match key {
        Key::Name(..) | Key::Literal(..) => has_level(levels),
        Key::Computed(_, value) => fits_expr(value, levels),
    }
}

#[tactic(auto, using(crate::proofs::Depths::depths))]
fn counts_pattern(pattern: &Pat) -> bool
    ensures binds { result ≡ counts_tree (view_pattern pattern.now Binds) }
    ensures assigns { result ≡ counts_tree (view_pattern pattern.now Assigns) }
{
    match pattern {
        Pat::Target(expr) => counts_expr(expr),
        Pat::Binding(_, _, value) => value.is_some(),
        Pat::Rest(..) | Pat::Hole | Pat::RestProperty(..) | Pat::Declaration(..) | Pat::Head(..) =>
            false,
        Pat::Ident(..)
        | Pat::Array(..)
        | Pat::Object(..)
        | Pat::Paren(..)
        | Pat::WithInit(..)
        | Pat::Pair(..)
        | Pat::Shorthand(..) => true,
    }
}

/// The default of a name, which stands in a node of its own with the name.
#[cycle(depth)]
#[tactic(auto, using(crate::proofs::Depths::nodes))]
fn fits_default(value: &Expr, levels: u32) -> bool
    ensures { result ≡ fits_default levels (view_expr value.now) }
{
    match within(true, levels) {
        Some(inside) => has_level(inside) && fits_expr(value, inside),
        None => false,
    }
}

/// A name alone, or with its default.
#[cycle(depth)]
#[tactic(auto, using(crate::proofs::Depths::depths))]
fn parts_of_short(value: &Option<Box<Expr<'_>>>, levels: u32) -> bool
    ensures { result ≡ short_inside levels (optional_of view_expr value.now) }
{
    match value {
        Some(value) => fits_default(value, levels),
        None => has_level(levels),
    }
}

#[cycle(depth)]
#[tactic(auto, using(crate::proofs::Depths::depths))]
fn parts_of_pattern(pattern: &Pat, levels: u32) -> bool
    ensures binds { result ≡ fits_inside levels (view_pattern pattern.now Binds) }
    ensures assigns { result ≡ fits_inside levels (view_pattern pattern.now Assigns) }
{
    match pattern {
        Pat::Array(_, items) => fits_patterns(items, levels),
        Pat::Object(_, items) => fits_patterns(items, levels),
        Pat::Target(expr) => parts_of_expr(expr, levels),
        Pat::Paren(_, inner) => fits_pattern(inner, levels),
        Pat::Binding(_, name, value) => {
            fits_pattern(name, levels) && fits_optional(value, levels)
        }
        Pat::WithInit(_, target, value) => {
            fits_pattern(target, levels) && fits_expr(value, levels)
        }
        Pat::Rest(_, target) => fits_pattern(target, levels),
        Pat::Pair(_, key, value) => fits_key(key, levels) && fits_pattern(value, levels),
        Pat::Shorthand(_, _, value) => parts_of_short(value, levels),
        Pat::RestProperty(..) => has_level(levels),
        Pat::Declaration(_, _, declarators) => fits_patterns(declarators, levels),
        Pat::Head(_, _, name) => fits_pattern(name, levels),
        Pat::Ident(..) | Pat::Hole => true,
    }
}

/// Whether a pattern is within so many levels.
#[cycle(depth)]
#[tactic(auto, using(crate::proofs::Depths::nodes))]
pub fn fits_pattern(pattern: &Pat, levels: u32) -> bool
    ensures binds { result ≡ fits levels (view_pattern pattern.now Binds) }
    ensures assigns { result ≡ fits levels (view_pattern pattern.now Assigns) }
{
    match within(counts_pattern(pattern), levels) {
        Some(inside) => parts_of_pattern(pattern, inside),
        None => false,
    }
}

#[cycle(depth)]
pub(crate) fn fits_patterns(patterns: &[Box<Pat<'_>>], levels: u32) -> bool
    ensures binds { result ≡ fits levels (list (forest_at Binds (map (inside view_pattern) patterns.now))) }
    ensures assigns { result ≡ fits levels (list (forest_at Assigns (map (inside view_pattern) patterns.now))) }
{
    for pattern in patterns {
        if !fits_pattern(pattern, levels) {
            return false;
        }
    }
    true
}

#[cycle(depth)]
#[tactic(auto, using(crate::proofs::Depths::depths))]
pub(crate) fn fits_optional_pattern(pattern: &Option<Box<Pat<'_>>>, levels: u32) -> bool
    ensures binds { result ≡ fits levels (optional_at_of Binds view_pattern pattern.now) }
    ensures assigns { result ≡ fits levels (optional_at_of Assigns view_pattern pattern.now) }
{
    match pattern {
        Some(pattern) => fits_pattern(pattern, levels),
        None => true,
    }
}
