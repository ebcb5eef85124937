//! The makers of arrow functions.

ghost use Rattle.std.specs.Prelude.{◌≡◌, [], ◌∷◌, IfOk, map};
ghost use Rattle.jsx_tree.specs.Kinds.{Arrow, ArrowBlock, BareArrow, BareArrowBlock, expression, list, none, node, part};
ghost use Rattle.jsx_tree.specs.View.{body, forest, inside, name_of, view_expr, view_pat, view_stmt};
ghost use Rattle.jsx_tree.specs.Told.{told_body, told_expr, told_list, told_node, told_pat, told_stmt, told_text};
ghost use Rattle.jsx_make.specs.NodeSpans.{expr_at};

use crate::make::boxed;
use jsx_base::Span;
use jsx_tree::{Expr, Ident, Operation, Pat, Stmt, Text};
use std::alloc::{AllocError, Global};

/// `(a, b) => c`
pub fn arrow<'s>(
    alloc: Global,
    at: Option<Span>,
    params: Vec<Box<Pat<'s>>>,
    value: Box<Expr<'s>>,
) -> Result<Box<Expr<'s>>, AllocError>
    ensures view { IfOk result (λ e. view_expr e.value ≡ node (expression Arrow) (part (list (forest (map (inside view_pat) params.entry.items))) (part (view_expr value.entry.value) none))) }
    ensures told { IfOk result (λ e. told_expr e.value ≡ told_node at (told_list (map (inside told_pat) params.entry.items) ∷ told_expr value.entry.value ∷ [])) }
    ensures span { IfOk result (λ e. expr_at e.value ≡ at) }
{
    boxed(alloc, Expr::Operation(Operation::Arrow(at, params, value)))
}

/// `(a, b) => { c; }`
pub fn arrow_block<'s>(
    alloc: Global,
    at: Option<Span>,
    params: Vec<Box<Pat<'s>>>,
    directives: Vec<Text<'s>>,
    statements: Vec<Box<Stmt<'s>>>,
) -> Result<Box<Expr<'s>>, AllocError>
    ensures view { IfOk result (λ e. view_expr e.value ≡ node (expression ArrowBlock) (part (list (forest (map (inside view_pat) params.entry.items))) (part (body directives.entry.items (map (inside view_stmt) statements.entry.items)) none))) }
    ensures told { IfOk result (λ e. told_expr e.value ≡ told_node at (told_list (map (inside told_pat) params.entry.items) ∷ told_body directives.entry.items (map (inside told_stmt) statements.entry.items) ∷ [])) }
    ensures span { IfOk result (λ e. expr_at e.value ≡ at) }
{
    let block = Operation::ArrowBlock(at, params, directives, statements);
    boxed(alloc, Expr::Operation(block))
}

/// `a => b`
pub fn bare_arrow<'s>(
    alloc: Global,
    at: Option<Span>,
    param: Ident<'s>,
    value: Box<Expr<'s>>,
) -> Result<Box<Expr<'s>>, AllocError>
    ensures view { IfOk result (λ e. view_expr e.value ≡ node (expression BareArrow) (part (name_of param.entry) (part (view_expr value.entry.value) none))) }
    ensures told { IfOk result (λ e. told_expr e.value ≡ told_node at (told_text param.entry.text ∷ told_expr value.entry.value ∷ [])) }
    ensures span { IfOk result (λ e. expr_at e.value ≡ at) }
{
    boxed(
        alloc,
        Expr::Operation(Operation::BareArrow(at, param, value)),
    )
}

/// `a => { b; }`
pub fn bare_arrow_block<'s>(
    alloc: Global,
    at: Option<Span>,
    param: Ident<'s>,
    directives: Vec<Text<'s>>,
    statements: Vec<Box<Stmt<'s>>>,
) -> Result<Box<Expr<'s>>, AllocError>
    ensures view { IfOk result (λ e. view_expr e.value ≡ node (expression BareArrowBlock) (part (name_of param.entry) (part (body directives.entry.items (map (inside view_stmt) statements.entry.items)) none))) }
    ensures told { IfOk result (λ e. told_expr e.value ≡ told_node at (told_text param.entry.text ∷ told_body directives.entry.items (map (inside told_stmt) statements.entry.items) ∷ [])) }
    ensures span { IfOk result (λ e. expr_at e.value ≡ at) }
{
    let block = Operation::BareArrowBlock(at, param, directives, statements);
    boxed(alloc, Expr::Operation(block))
}
