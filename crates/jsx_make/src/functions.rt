//! The makers of functions, of patterns and what stands among parameters, and of `return`.

ghost use Rattle.std.specs.Prelude.{◌≡◌, [], ◌∷◌, IfOk, map};
ghost use Rattle.jsx_tree.specs.Kinds.{Role, FunctionExpr, FunctionDecl, Return, WithInit, RestPat, ArrayPat, ObjectPat, PropertyPat, ShorthandPat, ShorthandInit, RestProperty, Assigns, Binds, leaf, statement, function, node, list, none, part};
ghost use Rattle.jsx_tree.specs.View.{name_of, inside, forest, body, optional_of, view_expr, view_key, view_pattern, view_pat, view_stmt, view_target};
ghost use Rattle.jsx_tree.specs.Told.{told_list, told_optional, told_ident, told_text, told_body, told_node, told_expr, told_key, told_pat, told_stmt};
ghost use Rattle.jsx_base.specs.Token.{Elision};
ghost use Rattle.jsx_tree.specs.Spans.{no_tales, tells};
ghost use Rattle.jsx_make.specs.NodeSpans.{expr_at, pat_at, stmt_at};

use crate::make::boxed;
use jsx_base::Span;
use jsx_tree::{Expr, Ident, Key, Pat, Stmt, Text};
use std::alloc::{AllocError, Global};

/// `function f(a) {}` as an expression, with a name or without.
pub fn function_expression<'s>(
    alloc: Global,
    at: Option<Span>,
    name: Option<Box<Ident<'s>>>,
    params: Vec<Box<Pat<'s>>>,
    directives: Vec<Text<'s>>,
    statements: Vec<Box<Stmt<'s>>>,
) -> Result<Box<Expr<'s>>, AllocError>
    ensures view { IfOk result (λ e. view_expr e.value ≡ node (function FunctionExpr) (part (optional_of name_of name.entry) (part (list (forest (map (inside view_pat) params.entry.items))) (part (body directives.entry.items (map (inside view_stmt) statements.entry.items)) none)))) }
    ensures told { IfOk result (λ e. told_expr e.value ≡ told_node at (told_optional told_ident name.entry ∷ told_list (map (inside told_pat) params.entry.items) ∷ told_body directives.entry.items (map (inside told_stmt) statements.entry.items) ∷ [])) }
    ensures span { IfOk result (λ e. expr_at e.value ≡ at) }
{
    boxed(
        alloc,
        Expr::Function(at, name, params, directives, statements),
    )
}

/// `function f(a) {}` as a declaration.
pub fn function_declaration<'s>(
    alloc: Global,
    at: Option<Span>,
    name: Ident<'s>,
    params: Vec<Box<Pat<'s>>>,
    directives: Vec<Text<'s>>,
    statements: Vec<Box<Stmt<'s>>>,
) -> Result<Box<Stmt<'s>>, AllocError>
    ensures view { IfOk result (λ s. view_stmt s.value ≡ node (statement FunctionDecl) (part (name_of name.entry) (part (list (forest (map (inside view_pat) params.entry.items))) (part (body directives.entry.items (map (inside view_stmt) statements.entry.items)) none)))) }
    ensures told { IfOk result (λ s. told_stmt s.value ≡ told_node at (told_text name.entry.text ∷ told_list (map (inside told_pat) params.entry.items) ∷ told_body directives.entry.items (map (inside told_stmt) statements.entry.items) ∷ [])) }
    ensures span { IfOk result (λ s. stmt_at s.value ≡ at) }
{
    boxed(
        alloc,
        Stmt::Function(at, name, params, directives, statements),
    )
}

/// `return a;`, or `return;`
pub fn return_statement<'s>(
    alloc: Global,
    at: Option<Span>,
    value: Option<Box<Expr<'s>>>,
) -> Result<Box<Stmt<'s>>, AllocError>
    ensures view { IfOk result (λ s. view_stmt s.value ≡ node (statement Return) (part (optional_of view_expr value.entry) none)) }
    ensures told { IfOk result (λ s. told_stmt s.value ≡ told_node at (told_optional told_expr value.entry ∷ [])) }
    ensures span { IfOk result (λ s. stmt_at s.value ≡ at) }
{
    boxed(alloc, Stmt::Return(at, value))
}

/// A parameter with a default: `a = 1`.
pub fn with_default<'s>(
    alloc: Global,
    at: Option<Span>,
    target: Box<Pat<'s>>,
    value: Box<Expr<'s>>,
) -> Result<Box<Pat<'s>>, AllocError>
    ensures view { IfOk result (λ p. (r : Role) → view_pattern p.value r ≡ node (function (WithInit r)) (part (view_pattern target.entry.value r) (part (view_expr value.entry.value) none))) }
    ensures told { IfOk result (λ p. told_pat p.value ≡ told_node at (told_pat target.entry.value ∷ told_expr value.entry.value ∷ [])) }
    ensures span { IfOk result (λ p. pat_at p.value ≡ at) }
{
    boxed(alloc, Pat::WithInit(at, target, value))
}

/// `...a`, the last of some parameters
pub fn rest<'s>(
    alloc: Global,
    at: Option<Span>,
    target: Box<Pat<'s>>,
) -> Result<Box<Pat<'s>>, AllocError>
    ensures view { IfOk result (λ p. (r : Role) → view_pattern p.value r ≡ node (function (RestPat r)) (part (view_pattern target.entry.value r) none)) }
    ensures told { IfOk result (λ p. told_pat p.value ≡ told_node at (told_pat target.entry.value ∷ [])) }
    ensures span { IfOk result (λ p. pat_at p.value ≡ at) }
{
    boxed(alloc, Pat::Rest(at, target))
}

/// `[a, , ...b]` as a pattern.
pub fn array_pattern<'s>(
    alloc: Global,
    at: Option<Span>,
    slots: Vec<Box<Pat<'s>>>,
) -> Result<Box<Pat<'s>>, AllocError>
    ensures view { IfOk result (λ p. view_pat p.value ≡ node (function (ArrayPat Binds)) (part (list (forest (map (inside view_pat) slots.entry.items))) none)) }
    ensures assigns { IfOk result (λ p. view_target p.value ≡ node (function (ArrayPat Assigns)) (part (list (forest (map (inside view_target) slots.entry.items))) none)) }
    ensures told { IfOk result (λ p. told_pat p.value ≡ told_node at (told_list (map (inside told_pat) slots.entry.items) ∷ [])) }
    ensures span { IfOk result (λ p. pat_at p.value ≡ at) }
{
    boxed(alloc, Pat::Array(at, slots))
}

/// Nothing, between two commas of an array.
pub fn pattern_hole<'s>(alloc: Global) -> Result<Box<Pat<'s>>, AllocError>
    ensures view { IfOk result (λ p. (r : Role) → view_pattern p.value r ≡ leaf Elision []) }
    ensures told { IfOk result (λ p. told_pat p.value ≡ tells [] no_tales) }
{
    boxed(alloc, Pat::Hole)
}

/// `{ a, b: c }` as a pattern.
pub fn object_pattern<'s>(
    alloc: Global,
    at: Option<Span>,
    parts: Vec<Box<Pat<'s>>>,
) -> Result<Box<Pat<'s>>, AllocError>
    ensures view { IfOk result (λ p. view_pat p.value ≡ node (function (ObjectPat Binds)) (part (list (forest (map (inside view_pat) parts.entry.items))) none)) }
    ensures assigns { IfOk result (λ p. view_target p.value ≡ node (function (ObjectPat Assigns)) (part (list (forest (map (inside view_target) parts.entry.items))) none)) }
    ensures told { IfOk result (λ p. told_pat p.value ≡ told_node at (told_list (map (inside told_pat) parts.entry.items) ∷ [])) }
    ensures span { IfOk result (λ p. pat_at p.value ≡ at) }
{
    boxed(alloc, Pat::Object(at, parts))
}

/// `a: b` in a pattern.
pub fn pair_pattern<'s>(
    alloc: Global,
    at: Option<Span>,
    key: Key<'s>,
    value: Box<Pat<'s>>,
) -> Result<Box<Pat<'s>>, AllocError>
    ensures view { IfOk result (λ p. (r : Role) → view_pattern p.value r ≡ node (function (PropertyPat r)) (part (view_key key.entry) (part (view_pattern value.entry.value r) none))) }
    ensures told { IfOk result (λ p. told_pat p.value ≡ told_node at (told_key key.entry ∷ told_pat value.entry.value ∷ [])) }
    ensures span { IfOk result (λ p. pat_at p.value ≡ at) }
{
    boxed(alloc, Pat::Pair(at, key, value))
}

/// `a` in a pattern.
pub fn short_pattern<'s>(
    alloc: Global,
    at: Option<Span>,
    name: Ident<'s>,
) -> Result<Box<Pat<'s>>, AllocError>
    ensures view { IfOk result (λ p. (r : Role) → view_pattern p.value r ≡ node (function (ShorthandPat r)) (part (name_of name.entry) none)) }
    ensures told { IfOk result (λ p. told_pat p.value ≡ told_node at (told_text name.entry.text ∷ [])) }
    ensures span { IfOk result (λ p. pat_at p.value ≡ at) }
{
    boxed(alloc, Pat::Shorthand(at, name, None))
}

/// `a = 1` in a pattern.
pub fn short_default<'s>(
    alloc: Global,
    at: Option<Span>,
    name: Ident<'s>,
    value: Box<Expr<'s>>,
) -> Result<Box<Pat<'s>>, AllocError>
    ensures view { IfOk result (λ p. (r : Role) → view_pattern p.value r ≡ node (function (ShorthandInit r)) (part (name_of name.entry) (part (view_expr value.entry.value) none))) }
    ensures told { IfOk result (λ p. told_pat p.value ≡ told_node at (told_text name.entry.text ∷ told_expr value.entry.value ∷ [])) }
    ensures span { IfOk result (λ p. pat_at p.value ≡ at) }
{
    boxed(alloc, Pat::Shorthand(at, name, Some(value)))
}

/// `...a` in an object's pattern.
pub fn rest_property<'s>(
    alloc: Global,
    at: Option<Span>,
    name: Ident<'s>,
) -> Result<Box<Pat<'s>>, AllocError>
    ensures view { IfOk result (λ p. (r : Role) → view_pattern p.value r ≡ node (function (RestProperty r)) (part (name_of name.entry) none)) }
    ensures told { IfOk result (λ p. told_pat p.value ≡ told_node at (told_text name.entry.text ∷ [])) }
    ensures span { IfOk result (λ p. pat_at p.value ≡ at) }
{
    boxed(alloc, Pat::RestProperty(at, name))
}
