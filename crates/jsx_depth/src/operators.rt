//! Operators and arrows, what goes on with an expression, and the links of a chain.

ghost use Rattle.std.specs.Prelude.{◌≡◌, map, true};
ghost use Rattle.jsx_tree.specs.Kinds.{list};
ghost use Rattle.jsx_tree.specs.View.{inside, forest, template, view_access, view_expr, view_link, view_operation};
ghost use Rattle.jsx_depth.specs.Fits.{counts_tree, fits, fits_inside};

use crate::expressions::{fits_expr, fits_exprs, fits_template};
use crate::level::{has_level, within};
use crate::patterns::{fits_pattern, fits_patterns};
use crate::statements::fits_body;
use jsx_tree::{Access, Expr, Link, Operation, Text};

#[tactic(auto, using(crate::proofs::Depths::depths))]
pub(crate) fn counts_operation(operation: &Operation) -> bool
    ensures { result ≡ counts_tree (view_operation operation.now) }
{
    match operation {
        Operation::Seq(..) | Operation::Spread(..) | Operation::Hole => false,
        Operation::Assign(..)
        | Operation::OpAssign(..)
        | Operation::Arrow(..)
        | Operation::ArrowBlock(..)
        | Operation::BareArrow(..)
        | Operation::BareArrowBlock(..)
        | Operation::Cond(..)
        | Operation::Binary(..)
        | Operation::Unary(..)
        | Operation::Update(..) => true,
    }
}

#[cycle(depth)]
#[tactic(auto, using(crate::proofs::Depths::depths))]
pub(crate) fn parts_of_operation(operation: &Operation, levels: u32) -> bool
    ensures { result ≡ fits_inside levels (view_operation operation.now) }
{
    match operation {
        Operation::Seq(_, items) => fits_exprs(items, levels),
        Operation::Assign(_, target, value) => {
            fits_pattern(target, levels) && fits_expr(value, levels)
        }
        Operation::OpAssign(_, _, target, value) => {
            fits_pattern(target, levels) && fits_expr(value, levels)
        }
        Operation::Arrow(_, parameters, value) => {
            fits_patterns(parameters, levels) && fits_expr(value, levels)
        }
        Operation::ArrowBlock(_, parameters, directives, body) => {
            fits_patterns(parameters, levels) && fits_body(directives, body, levels)
        }
        Operation::BareArrow(_, _, value) => has_level(levels) && fits_expr(value, levels),
        Operation::BareArrowBlock(_, _, directives, body) => {
            has_level(levels) && fits_body(directives, body, levels)
        }
        Operation::Cond(_, test, then, other) => {
            fits_expr(test, levels) && fits_expr(then, levels) && fits_expr(other, levels)
        }
        Operation::Binary(_, _, left, right) => {
            fits_expr(left, levels) && fits_expr(right, levels)
        }
        Operation::Unary(_, _, operand) => fits_expr(operand, levels),
        Operation::Update(_, _, _, target) => fits_pattern(target, levels),
        Operation::Spread(_, value) => fits_expr(value, levels),
        Operation::Hole => true,
    }
}

/// A template behind its tag: a node of its own.
#[cycle(depth)]
#[tactic(auto, using(crate::proofs::Depths::nodes))]
fn fits_quoted(pieces: &[Text<'_>], values: &[Box<Expr<'_>>], levels: u32) -> bool
    ensures { result ≡ fits levels (template true pieces.now (map (inside view_expr) values.now)) }
{
    match within(true, levels) {
        Some(inside) => fits_template(pieces, values, inside),
        None => false,
    }
}

/// What goes on with an expression. Each of these counts.
#[cycle(depth)]
#[tactic(auto, using(crate::proofs::Depths::depths))]
pub(crate) fn parts_of_access(access: &Access, levels: u32) -> bool
    ensures { result ≡ fits_inside levels (view_access access.now) }
{
    match access {
        Access::Call(_, callee, arguments) => {
            fits_expr(callee, levels) && fits_exprs(arguments, levels)
        }
        Access::Member(_, object, _) => fits_expr(object, levels) && has_level(levels),
        Access::Index(_, object, index) => fits_expr(object, levels) && fits_expr(index, levels),
        Access::Tagged(_, tag, _, pieces, values) => {
            fits_expr(tag, levels) && fits_quoted(pieces, values, levels)
        }
        Access::New(_, callee, arguments) => {
            fits_expr(callee, levels) && fits_exprs(arguments, levels)
        }
        Access::NewWithoutArguments(_, callee) => fits_expr(callee, levels),
        Access::SuperCall(_, arguments) => fits_exprs(arguments, levels),
        Access::SuperMember(..) => has_level(levels),
        Access::SuperIndex(_, index) => fits_expr(index, levels),
        Access::ImportCall(_, source) => fits_expr(source, levels),
        Access::Chain(_, base, links) => fits_expr(base, levels) && fits_links(links, levels),
    }
}

/// A link of a chain, which doesn't count.
#[cycle(depth)]
#[tactic(auto, using(crate::proofs::Depths::depths))]
fn fits_link(link: &Link, levels: u32) -> bool
    ensures { result ≡ fits levels (view_link link.now) }
{
    match link {
        Link::Member(..) => has_level(levels),
        Link::Index(_, _, index) => fits_expr(index, levels),
        Link::Call(_, _, arguments) => fits_exprs(arguments, levels),
    }
}

#[cycle(depth)]
fn fits_links(links: &[Box<Link<'_>>], levels: u32) -> bool
    ensures { result ≡ fits levels (list (forest (map (inside view_link) links.now))) }
{
    for link in links {
        if !fits_link(link, levels) {
            return false;
        }
    }
    true
}
