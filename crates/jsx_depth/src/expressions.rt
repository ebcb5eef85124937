//! Expressions, and the pieces of templates.

ghost use Rattle.std.specs.Prelude.{◌≡◌, Bool, map, take};
ghost use Rattle.jsx_tree.specs.Kinds.{list};
ghost use Rattle.jsx_tree.specs.View.{inside, forest, name_of, optional_of, template, view_expr};
ghost use Rattle.jsx_depth.specs.Fits.{counts_tree, fits, fits_inside, used};

use crate::elements::{counts_jsx, parts_of_jsx};
use crate::level::{has_level, within};
use crate::objects::fits_members;
use crate::operators::{counts_operation, parts_of_access, parts_of_operation};
use crate::patterns::fits_patterns;
use crate::statements::fits_body;
use jsx_tree::{Expr, Ident, Text};

#[tactic(auto, using(crate::proofs::Depths::depths))]
pub(crate) fn counts_expr(expr: &Expr) -> bool
    ensures { result ≡ counts_tree (view_expr expr.now) }
{
    match expr {
        Expr::Operation(operation) => counts_operation(operation),
        Expr::Jsx(element) => counts_jsx(element),
        Expr::Ident(..)
        | Expr::Literal(..)
        | Expr::Word(..)
        | Expr::Access(..)
        | Expr::Array(..)
        | Expr::Object(..)
        | Expr::Template(..)
        | Expr::Function(..)
        | Expr::Class(..)
        | Expr::Paren(..) => true,
    }
}

/// The name of a function or a class, which may be absent.
#[tactic(auto, using(crate::proofs::Depths::depths))]
fn fits_own_name(name: &Option<Box<Ident<'_>>>, levels: u32) -> bool
    ensures { result ≡ fits levels (optional_of name_of name.now) }
{
    match name {
        Some(_) => has_level(levels),
        None => true,
    }
}

#[cycle(depth)]
#[tactic(auto, using(crate::proofs::Depths::depths))]
pub(crate) fn parts_of_expr(expr: &Expr, levels: u32) -> bool
    ensures { result ≡ fits_inside levels (view_expr expr.now) }
{
    match expr {
        Expr::Operation(operation) => parts_of_operation(operation, levels),
        Expr::Access(access) => parts_of_access(access, levels),
        Expr::Array(_, items) => fits_exprs(items, levels),
        Expr::Object(_, members) => fits_members(members, levels),
        Expr::Template(_, pieces, values) => fits_template(pieces, values, levels),
        Expr::Function(_, name, parameters, directives, body) => {
            fits_own_name(name, levels)
                && fits_patterns(parameters, levels)
                && fits_body(directives, body, levels)
        }
        Expr::Class(_, name, parent, members) => {
            fits_own_name(name, levels)
                && fits_optional(parent, levels)
                && fits_members(members, levels)
        }
        Expr::Jsx(element) => parts_of_jsx(element, levels),
        Expr::Paren(_, inner) => fits_expr(inner, levels),
        Expr::Ident(..) | Expr::Literal(..) | Expr::Word(..) => true,
    }
}

/// Whether an expression is within so many levels.
#[cycle(depth)]
#[tactic(auto, using(crate::proofs::Depths::nodes))]
pub fn fits_expr(expr: &Expr, levels: u32) -> bool
    ensures { result ≡ fits levels (view_expr expr.now) }
{
    match within(counts_expr(expr), levels) {
        Some(inside) => parts_of_expr(expr, inside),
        None => false,
    }
}

#[cycle(depth)]
pub(crate) fn fits_exprs(exprs: &[Box<Expr<'_>>], levels: u32) -> bool
    ensures { result ≡ fits levels (list (forest (map (inside view_expr) exprs.now))) }
{
    for expr in exprs {
        if !fits_expr(expr, levels) {
            return false;
        }
    }
    true
}

#[cycle(depth)]
#[tactic(auto, using(crate::proofs::Depths::depths))]
pub(crate) fn fits_optional(expr: &Option<Box<Expr<'_>>>, levels: u32) -> bool
    ensures { result ≡ fits levels (optional_of view_expr expr.now) }
{
    match expr {
        Some(expr) => fits_expr(expr, levels),
        None => true,
    }
}

/// The same of so many expressions of a list, from its front.
#[cycle(depth)]
fn fits_front(exprs: &[Box<Expr<'_>>], count: usize, levels: u32) -> bool
    ensures { result ≡ fits levels (list (forest (take count (map (inside view_expr) exprs.now)))) }
{
    for (i, expr) in exprs.iter().enumerate() {
        if i < count && !fits_expr(expr, levels) {
            return false;
        }
    }
    true
}

/// How many expressions of a template with so many pieces behind its first belong to it: each, where a piece is behind each.
fn count_of(pieces: usize, values: usize) -> usize
    ensures { result ≡ used pieces values }
{
    if pieces < values {
        return pieces.saturating_sub(1);
    }
    values
}

/// The pieces of a template, and the expressions between them.
#[cycle(depth)]
pub(crate) fn fits_template(pieces: &[Text<'_>], values: &[Box<Expr<'_>>], levels: u32) -> bool
    ensures { (b : Bool) → result ≡ fits_inside levels (template b pieces.now (map (inside view_expr) values.now)) }
{
    if pieces.is_empty() {
        return true;
    }
    has_level(levels) && fits_front(values, count_of(pieces.len() - 1, values.len()), levels)
}
