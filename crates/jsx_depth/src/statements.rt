//! Statements, and the bodies of functions.

ghost use Rattle.std.specs.Prelude.{◌≡◌, map};
ghost use Rattle.jsx_tree.specs.Kinds.{list};
ghost use Rattle.jsx_tree.specs.View.{inside, body, directive, forest, optional_name, optional_of, view_stmt};
ghost use Rattle.jsx_depth.specs.Fits.{counts_tree, fits, fits_inside};

use crate::control::{counts_control, parts_of_control};
use crate::expressions::{fits_expr, fits_optional};
use crate::level::{has_level, within};
use crate::objects::fits_members;
use crate::patterns::fits_patterns;
use jsx_tree::{Ident, Stmt, Text};

#[tactic(auto, using(crate::proofs::Depths::depths))]
pub(crate) fn counts_stmt(stmt: &Stmt) -> bool
    ensures { result ≡ counts_tree (view_stmt stmt.now) }
{
    match stmt {
        Stmt::Expr(..) => false,
        Stmt::Control(control) => counts_control(control),
        Stmt::Block(..)
        | Stmt::Var(..)
        | Stmt::Empty(..)
        | Stmt::Continue(..)
        | Stmt::Break(..)
        | Stmt::Return(..)
        | Stmt::Throw(..)
        | Stmt::Debugger(..)
        | Stmt::Function(..)
        | Stmt::Class(..) => true,
    }
}

/// A name that may be absent.
#[tactic(auto, using(crate::proofs::Depths::depths))]
pub(crate) fn fits_name(name: &Option<Ident<'_>>, levels: u32) -> bool
    ensures { result ≡ fits levels (optional_name name.now) }
{
    match name {
        Some(_) => has_level(levels),
        None => true,
    }
}

#[cycle(depth)]
#[tactic(auto, using(crate::proofs::Depths::depths))]
pub(crate) fn parts_of_stmt(stmt: &Stmt, levels: u32) -> bool
    ensures { result ≡ fits_inside levels (view_stmt stmt.now) }
{
    match stmt {
        Stmt::Block(_, body) => fits_stmts(body, levels),
        Stmt::Var(_, _, declarators) => fits_patterns(declarators, levels),
        Stmt::Expr(_, expr) => fits_expr(expr, levels),
        Stmt::Control(control) => parts_of_control(control, levels),
        Stmt::Continue(_, label) => fits_name(label, levels),
        Stmt::Break(_, label) => fits_name(label, levels),
        Stmt::Return(_, value) => fits_optional(value, levels),
        Stmt::Throw(_, value) => fits_expr(value, levels),
        Stmt::Function(_, _, parameters, directives, body) => {
            has_level(levels)
                && fits_patterns(parameters, levels)
                && fits_body(directives, body, levels)
        }
        Stmt::Class(_, _, parent, members) => {
            has_level(levels) && fits_optional(parent, levels) && fits_members(members, levels)
        }
        Stmt::Empty(..) | Stmt::Debugger(..) => true,
    }
}

#[cycle(depth)]
#[tactic(auto, using(crate::proofs::Depths::nodes))]
pub(crate) fn fits_stmt(stmt: &Stmt, levels: u32) -> bool
    ensures { result ≡ fits levels (view_stmt stmt.now) }
{
    match within(counts_stmt(stmt), levels) {
        Some(inside) => parts_of_stmt(stmt, inside),
        None => false,
    }
}

#[cycle(depth)]
pub(crate) fn fits_stmts(stmts: &[Box<Stmt<'_>>], levels: u32) -> bool
    ensures { result ≡ fits levels (list (forest (map (inside view_stmt) stmts.now))) }
{
    for stmt in stmts {
        if !fits_stmt(stmt, levels) {
            return false;
        }
    }
    true
}

#[cycle(depth)]
#[tactic(auto, using(crate::proofs::Depths::depths))]
pub(crate) fn fits_optional_stmt(stmt: &Option<Box<Stmt<'_>>>, levels: u32) -> bool
    ensures { result ≡ fits levels (optional_of view_stmt stmt.now) }
{
    match stmt {
        Some(stmt) => fits_stmt(stmt, levels),
        None => true,
    }
}

/// Directives, each a string.
pub(crate) fn fits_directives(directives: &[Text<'_>], levels: u32) -> bool
    ensures { result ≡ fits levels (list (forest (map directive directives.now))) }
{
    directives.is_empty() || has_level(levels)
}

/// The directives and the statements of a function, which are no level of their own.
#[cycle(depth)]
#[tactic(auto, using(crate::proofs::Depths::depths))]
pub(crate) fn fits_body(directives: &[Text<'_>], stmts: &[Box<Stmt<'_>>], levels: u32) -> bool
    ensures { result ≡ fits levels (body directives.now (map (inside view_stmt) stmts.now)) }
{
    fits_directives(directives, levels) && fits_stmts(stmts, levels)
}
