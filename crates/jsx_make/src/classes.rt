//! The makers of classes, of members that are methods or fields, and of what `super` begins.

ghost use Rattle.std.specs.Prelude.{◌≡◌, [], ◌∷◌, IfOk, map};
ghost use Rattle.jsx_tree.specs.Kinds.{Binds, ClassDecl, ClassExpr, Field, Getter, Method, Setter, SuperCall, SuperIndex, SuperMember, expression, statement, function, node, list, none, part};
ghost use Rattle.jsx_tree.specs.View.{Owner, body, forest, holder_of, inside, name_of, optional_of, view_expr, view_key, view_member, view_pat, view_pattern, view_stmt, word};
ghost use Rattle.jsx_tree.specs.Told.{told_body, told_expr, told_ident, told_key, told_list, told_node, told_optional, told_pat, told_prop, told_stmt, told_text};
ghost use Rattle.jsx_make.specs.Members.{view_class_member};
ghost use Rattle.jsx_make.specs.NodeSpans.{expr_at, member_at, stmt_at};

use crate::make::boxed;
use jsx_base::Span;
use jsx_tree::{Access, Expr, Ident, Key, Pat, Placement, Prop, Stmt, Text};
use std::alloc::{AllocError, Global};

/// `class A extends B {}` as an expression, with a name or without.
pub fn class_expression<'s>(
    alloc: Global,
    at: Option<Span>,
    name: Option<Box<Ident<'s>>>,
    heritage: Option<Box<Expr<'s>>>,
    members: Vec<Box<Prop<'s>>>,
) -> Result<Box<Expr<'s>>, AllocError>
    ensures view { IfOk result (λ e. view_expr e.value ≡ node (function ClassExpr) (part (optional_of name_of name.entry) (part (optional_of view_expr heritage.entry) (part (list (forest (map (inside view_class_member) members.entry.items))) none)))) }
    ensures told { IfOk result (λ e. told_expr e.value ≡ told_node at (told_optional told_ident name.entry ∷ told_optional told_expr heritage.entry ∷ told_list (map (inside told_prop) members.entry.items) ∷ [])) }
    ensures span { IfOk result (λ e. expr_at e.value ≡ at) }
{
    boxed(alloc, Expr::Class(at, name, heritage, members))
}

/// `class A extends B {}` as a declaration.
pub fn class_declaration<'s>(
    alloc: Global,
    at: Option<Span>,
    name: Ident<'s>,
    heritage: Option<Box<Expr<'s>>>,
    members: Vec<Box<Prop<'s>>>,
) -> Result<Box<Stmt<'s>>, AllocError>
    ensures view { IfOk result (λ s. view_stmt s.value ≡ node (statement ClassDecl) (part (name_of name.entry) (part (optional_of view_expr heritage.entry) (part (list (forest (map (inside view_class_member) members.entry.items))) none)))) }
    ensures told { IfOk result (λ s. told_stmt s.value ≡ told_node at (told_text name.entry.text ∷ told_optional told_expr heritage.entry ∷ told_list (map (inside told_prop) members.entry.items) ∷ [])) }
    ensures span { IfOk result (λ s. stmt_at s.value ≡ at) }
{
    boxed(alloc, Stmt::Class(at, name, heritage, members))
}

/// `a(b) {}` in an object or a class
pub fn method<'s>(
    alloc: Global,
    at: Option<Span>,
    placement: Placement,
    key: Key<'s>,
    params: Vec<Box<Pat<'s>>>,
    directives: Vec<Text<'s>>,
    statements: Vec<Box<Stmt<'s>>>,
) -> Result<Box<Prop<'s>>, AllocError>
    ensures view { IfOk result (λ m. (o : Owner) → view_member m.value o ≡ node (function (Method (holder_of o placement))) (part (view_key key.entry) (part (list (forest (map (inside view_pat) params.entry.items))) (part (body directives.entry.items (map (inside view_stmt) statements.entry.items)) none)))) }
    ensures told { IfOk result (λ m. told_prop m.value ≡ told_node at (told_key key.entry ∷ told_list (map (inside told_pat) params.entry.items) ∷ told_body directives.entry.items (map (inside told_stmt) statements.entry.items) ∷ [])) }
    ensures span { IfOk result (λ m. member_at m.value ≡ at) }
{
    boxed(
        alloc,
        Prop::Method(at, placement, key, params, directives, statements),
    )
}

/// `get a() {}` in an object or a class
pub fn getter<'s>(
    alloc: Global,
    at: Option<Span>,
    placement: Placement,
    key: Key<'s>,
    directives: Vec<Text<'s>>,
    statements: Vec<Box<Stmt<'s>>>,
) -> Result<Box<Prop<'s>>, AllocError>
    ensures view { IfOk result (λ m. (o : Owner) → view_member m.value o ≡ node (function (Getter (holder_of o placement))) (part (view_key key.entry) (part (body directives.entry.items (map (inside view_stmt) statements.entry.items)) none))) }
    ensures told { IfOk result (λ m. told_prop m.value ≡ told_node at (told_key key.entry ∷ told_body directives.entry.items (map (inside told_stmt) statements.entry.items) ∷ [])) }
    ensures span { IfOk result (λ m. member_at m.value ≡ at) }
{
    boxed(
        alloc,
        Prop::Getter(at, placement, key, directives, statements),
    )
}

/// `set a(b) {}` in an object or a class
pub fn setter<'s>(
    alloc: Global,
    at: Option<Span>,
    placement: Placement,
    key: Key<'s>,
    param: Box<Pat<'s>>,
    directives: Vec<Text<'s>>,
    statements: Vec<Box<Stmt<'s>>>,
) -> Result<Box<Prop<'s>>, AllocError>
    ensures view { IfOk result (λ m. (o : Owner) → view_member m.value o ≡ node (function (Setter (holder_of o placement))) (part (view_key key.entry) (part (view_pattern param.entry.value Binds) (part (body directives.entry.items (map (inside view_stmt) statements.entry.items)) none)))) }
    ensures told { IfOk result (λ m. told_prop m.value ≡ told_node at (told_key key.entry ∷ told_pat param.entry.value ∷ told_body directives.entry.items (map (inside told_stmt) statements.entry.items) ∷ [])) }
    ensures span { IfOk result (λ m. member_at m.value ≡ at) }
{
    boxed(
        alloc,
        Prop::Setter(at, placement, key, param, directives, statements),
    )
}

/// `a = b;` in a class
pub fn field<'s>(
    alloc: Global,
    at: Option<Span>,
    placement: Placement,
    key: Key<'s>,
    value: Option<Box<Expr<'s>>>,
) -> Result<Box<Prop<'s>>, AllocError>
    ensures view { IfOk result (λ m. (o : Owner) → view_member m.value o ≡ node (function (Field (holder_of o placement))) (part (view_key key.entry) (part (optional_of view_expr value.entry) none))) }
    ensures told { IfOk result (λ m. told_prop m.value ≡ told_node at (told_key key.entry ∷ told_optional told_expr value.entry ∷ [])) }
    ensures span { IfOk result (λ m. member_at m.value ≡ at) }
{
    boxed(alloc, Prop::Field(at, placement, key, value))
}

/// `super(a)`
pub fn super_call<'s>(
    alloc: Global,
    at: Option<Span>,
    arguments: Vec<Box<Expr<'s>>>,
) -> Result<Box<Expr<'s>>, AllocError>
    ensures view { IfOk result (λ e. view_expr e.value ≡ node (expression SuperCall) (part (list (forest (map (inside view_expr) arguments.entry.items))) none)) }
    ensures told { IfOk result (λ e. told_expr e.value ≡ told_node at (told_list (map (inside told_expr) arguments.entry.items) ∷ [])) }
    ensures span { IfOk result (λ e. expr_at e.value ≡ at) }
{
    boxed(alloc, Expr::Access(Access::SuperCall(at, arguments)))
}

/// `super.a`
pub fn super_member<'s>(
    alloc: Global,
    at: Option<Span>,
    name: Text<'s>,
) -> Result<Box<Expr<'s>>, AllocError>
    ensures view { IfOk result (λ e. view_expr e.value ≡ node (expression SuperMember) (part (word name.entry) none)) }
    ensures told { IfOk result (λ e. told_expr e.value ≡ told_node at (told_text name.entry ∷ [])) }
    ensures span { IfOk result (λ e. expr_at e.value ≡ at) }
{
    boxed(alloc, Expr::Access(Access::SuperMember(at, name)))
}

/// `super[a]`
pub fn super_index<'s>(
    alloc: Global,
    at: Option<Span>,
    index: Box<Expr<'s>>,
) -> Result<Box<Expr<'s>>, AllocError>
    ensures view { IfOk result (λ e. view_expr e.value ≡ node (expression SuperIndex) (part (view_expr index.entry.value) none)) }
    ensures told { IfOk result (λ e. told_expr e.value ≡ told_node at (told_expr index.entry.value ∷ [])) }
    ensures span { IfOk result (λ e. expr_at e.value ≡ at) }
{
    boxed(alloc, Expr::Access(Access::SuperIndex(at, index)))
}
