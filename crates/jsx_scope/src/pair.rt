//! Pairs of parentheses, and what gets one by itself.

ghost use Rattle.std.specs.Prelude.{◌≡◌, OnOk, IfOk, None};
ghost use Rattle.jsx_tree.specs.Kinds.{Assigns, ParenTarget, function, node, part, none};
ghost use Rattle.jsx_tree.specs.Parentheses.{parens_of};
ghost use Rattle.jsx_tree.specs.View.{view_expr, view_pattern};
ghost use Rattle.jsx_tree.specs.declared.tree.Expr.TheVariants as expr_variant;
ghost use Rattle.jsx_tree.specs.declared.tree.Pat.TheVariants as pat_variant;
ghost use Rattle.jsx_scope.specs.Walk.{held};

use crate::text::is_async_target;
use jsx_tree::{Expr, Pat, Word};
use std::alloc::{AllocError, Global};
use std::mem;

/// A value in a box.
pub(crate) fn boxed<T: Drop>(alloc: Global, value: T) -> Result<Box<T>, AllocError>
    ensures { IfOk result (λ b. b.value ≡ value) }
{
    match Box::new(alloc, value) {
        Ok(boxed) => Ok(boxed),
        Err(_) => Err(AllocError),
    }
}

fn put_expr<'s>(expr: &mut Expr<'s>, inside: Box<Expr<'s>>)
    ensures { expr.new ≡ expr_variant.Paren None inside.entry }
{
    *expr = Expr::Paren(None, inside);
}

/// Puts a pair round an expression.
#[tactic(auto, using(crate::proofs::Walks::views))]
pub(crate) fn pair(alloc: Global, expr: &mut Box<Expr<'_>>) -> Result<(), AllocError>
    ensures { OnOk result (view_expr expr.new.value ≡ parens_of (view_expr expr.old.value)) }
{
    let mut hole = boxed(alloc, Expr::Word(None, Word::This))?;
    mem::swap(expr, &mut hole);
    put_expr(expr, hole);
    Ok(())
}

fn put_pattern<'s>(pattern: &mut Pat<'s>, inside: Box<Pat<'s>>)
    ensures { pattern.new ≡ pat_variant.Paren None inside.entry }
{
    *pattern = Pat::Paren(None, inside);
}

/// Puts a pair round a target.
#[tactic(auto, using(crate::proofs::Walks::views))]
fn pair_target(alloc: Global, target: &mut Box<Pat<'_>>) -> Result<(), AllocError>
    ensures { OnOk result (view_pattern target.new.value Assigns ≡ node (function ParenTarget) (part (view_pattern target.old.value Assigns) none)) }
{
    let mut hole = boxed(alloc, Pat::Hole)?;
    mem::swap(target, &mut hole);
    put_pattern(target, hole);
    Ok(())
}

/// The name `async` before `of`, which would begin an arrow.
pub(crate) fn hold_async(alloc: Global, head: &mut Box<Pat<'_>>) -> Result<(), AllocError>
    ensures { OnOk result (view_pattern head.new.value Assigns ≡ held (view_pattern head.old.value Assigns)) }
{
    if is_async_target(head) {
        pair_target(alloc, head)
    } else {
        Ok(())
    }
}
