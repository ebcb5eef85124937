//! The makers of nodes, those of classes, of functions and of statements by name. Each node is in a box: a function that holds boxes costs a check little, and one that holds a node
//! by value much.

ghost use Rattle.std.specs.Prelude.{◌≡◌, [], ◌∷◌, IfOk, map, false, true};
ghost use Rattle.jsx_tree.specs.Kinds.{Role, Assigns, Assign, OpAssign, Unary, Binary, Cond, Call, Member, Index, ImportCall, Parenthesized, Element, expression, jsx, leaf, node, list, none, part, PrefixUpdate, PostfixUpdate, Seq, Array, Spread, Object, Property, Shorthand, ComputedKey, ParenTarget, function, New, NewWithoutArguments, Tagged, Chain, NameLink, IndexLink, CallLink};
ghost use Rattle.jsx_tree.specs.View.{text_of, word, view_word, name_of, kind_of_literal, inside, forest, view_tag, view_expr, view_pattern, view_jsx, view_key, template, is_optional, view_link};
ghost use Rattle.jsx_tree.specs.ViewOperators.{assign_of, binary_of, unary_of, step_of};
ghost use Rattle.jsx_tree.specs.Told.{told_list, told_text, told_leaf, told_node, told_tag, told_expr, told_pat, told_jsx, told_key, told_prop, told_template, told_link};
ghost use Rattle.jsx_base.specs.Token.{Elision};
ghost use Rattle.jsx_tree.specs.Spans.{no_tales, tells};
ghost use Rattle.jsx_make.specs.NodeSpans.{expr_at, member_at, pat_at};
ghost use Rattle.jsx_make.specs.Members.{view_prop};

pub use crate::arrows::{arrow, arrow_block, bare_arrow, bare_arrow_block};
pub use crate::classes::{
    class_declaration, class_expression, field, getter, method, setter, super_call, super_index,
    super_member,
};
pub use crate::functions::{
    array_pattern, function_declaration, function_expression, object_pattern, pair_pattern,
    pattern_hole, rest, rest_property, return_statement, short_default, short_pattern,
    with_default,
};
pub use crate::statements::{
    block, break_statement, case_clause, catch_clause, continue_statement, debugger_statement,
    declarator, do_statement, empty_statement, expression_statement, for_in, for_of, for_statement,
    head, head_declaration, if_statement, label_statement, switch_statement, throw_statement,
    try_statement, variables, while_statement,
};
use jsx_base::Span;
use jsx_tree::{
    Access, AssignOp, BinaryOp, Expr, Ident, Jsx, Key, Link, LinkForm, LiteralKind, Operation, Pat,
    Prop, Tag, Text, UnaryOp, UpdateOp, UpdateSide, Word,
};
use std::alloc::{AllocError, Global};

/// A value in a box.
pub(crate) fn boxed<T: Drop>(alloc: Global, value: T) -> Result<Box<T>, AllocError>
    ensures { IfOk result (λ b. b.value ≡ value) }
{
    match Box::new(alloc, value) {
        Ok(made) => Ok(made),
        Err(_) => Err(AllocError),
    }
}

/// A name that is referred to.
pub fn name<'s>(
    alloc: Global,
    at: Option<Span>,
    name: Ident<'s>,
) -> Result<Box<Expr<'s>>, AllocError>
    ensures view { IfOk result (λ e. view_expr e.value ≡ name_of name.entry) }
    ensures told { IfOk result (λ e. told_expr e.value ≡ told_leaf at name.entry.text) }
    ensures span { IfOk result (λ e. expr_at e.value ≡ at) }
{
    boxed(alloc, Expr::Ident(at, name))
}

/// `this`, `null`, `true`, `false`, `import.meta` or `new.target`.
pub fn constant<'s>(
    alloc: Global,
    at: Option<Span>,
    value: Word,
) -> Result<Box<Expr<'s>>, AllocError>
    ensures view { IfOk result (λ e. view_expr e.value ≡ view_word value) }
    ensures told { IfOk result (λ e. told_expr e.value ≡ told_node at []) }
    ensures span { IfOk result (λ e. expr_at e.value ≡ at) }
{
    boxed(alloc, Expr::Word(at, value))
}

/// A literal whose text is one token.
pub fn literal<'s>(
    alloc: Global,
    at: Option<Span>,
    kind: LiteralKind,
    text: Text<'s>,
) -> Result<Box<Expr<'s>>, AllocError>
    ensures view { IfOk result (λ e. view_expr e.value ≡ leaf (kind_of_literal kind) (text_of text.entry)) }
    ensures told { IfOk result (λ e. told_expr e.value ≡ told_leaf at text.entry) }
    ensures span { IfOk result (λ e. expr_at e.value ≡ at) }
{
    boxed(alloc, Expr::Literal(at, kind, text))
}

/// `(a)`
pub fn paren<'s>(
    alloc: Global,
    at: Option<Span>,
    inner: Box<Expr<'s>>,
) -> Result<Box<Expr<'s>>, AllocError>
    ensures view { IfOk result (λ e. view_expr e.value ≡ node (expression Parenthesized) (part (view_expr inner.entry.value) none)) }
    ensures told { IfOk result (λ e. told_expr e.value ≡ told_expr inner.entry.value) }
    ensures span { IfOk result (λ e. expr_at e.value ≡ at) }
{
    boxed(alloc, Expr::Paren(at, inner))
}

/// The pieces of a template, and the expressions between them.
pub fn template<'s>(
    alloc: Global,
    at: Option<Span>,
    pieces: Vec<Text<'s>>,
    parts: Vec<Box<Expr<'s>>>,
) -> Result<Box<Expr<'s>>, AllocError>
    ensures view { IfOk result (λ e. view_expr e.value ≡ template false pieces.entry.items (map (inside view_expr) parts.entry.items)) }
    ensures told { IfOk result (λ e. told_expr e.value ≡ told_template at pieces.entry.items (map (inside told_expr) parts.entry.items)) }
    ensures span { IfOk result (λ e. expr_at e.value ≡ at) }
{
    boxed(alloc, Expr::Template(at, pieces, parts))
}

/// A tag and its template, which has a span of its own.
pub fn tagged<'s>(
    alloc: Global,
    at: Option<Span>,
    tag: Box<Expr<'s>>,
    here: Option<Span>,
    pieces: Vec<Text<'s>>,
    parts: Vec<Box<Expr<'s>>>,
) -> Result<Box<Expr<'s>>, AllocError>
    ensures view { IfOk result (λ e. view_expr e.value ≡ node (expression Tagged) (part (view_expr tag.entry.value) (part (template true pieces.entry.items (map (inside view_expr) parts.entry.items)) none))) }
    ensures told { IfOk result (λ e. told_expr e.value ≡ told_node at (told_expr tag.entry.value ∷ told_template here pieces.entry.items (map (inside told_expr) parts.entry.items) ∷ [])) }
    ensures span { IfOk result (λ e. expr_at e.value ≡ at) }
{
    boxed(
        alloc,
        Expr::Access(Access::Tagged(at, tag, here, pieces, parts)),
    )
}

/// `a, b`
pub fn sequence<'s>(
    alloc: Global,
    at: Option<Span>,
    exprs: Vec<Box<Expr<'s>>>,
) -> Result<Box<Expr<'s>>, AllocError>
    ensures view { IfOk result (λ e. view_expr e.value ≡ node (expression Seq) (part (list (forest (map (inside view_expr) exprs.entry.items))) none)) }
    ensures told { IfOk result (λ e. told_expr e.value ≡ told_node at (told_list (map (inside told_expr) exprs.entry.items) ∷ [])) }
    ensures span { IfOk result (λ e. expr_at e.value ≡ at) }
{
    boxed(alloc, Expr::Operation(Operation::Seq(at, exprs)))
}

/// `a(b, c)`
pub fn call<'s>(
    alloc: Global,
    at: Option<Span>,
    callee: Box<Expr<'s>>,
    arguments: Vec<Box<Expr<'s>>>,
) -> Result<Box<Expr<'s>>, AllocError>
    ensures view { IfOk result (λ e. view_expr e.value ≡ node (expression Call) (part (view_expr callee.entry.value) (part (list (forest (map (inside view_expr) arguments.entry.items))) none))) }
    ensures told { IfOk result (λ e. told_expr e.value ≡ told_node at (told_expr callee.entry.value ∷ told_list (map (inside told_expr) arguments.entry.items) ∷ [])) }
    ensures span { IfOk result (λ e. expr_at e.value ≡ at) }
{
    boxed(alloc, Expr::Access(Access::Call(at, callee, arguments)))
}

/// `new a(b)`
pub fn new_with_arguments<'s>(
    alloc: Global,
    at: Option<Span>,
    callee: Box<Expr<'s>>,
    arguments: Vec<Box<Expr<'s>>>,
) -> Result<Box<Expr<'s>>, AllocError>
    ensures view { IfOk result (λ e. view_expr e.value ≡ node (expression New) (part (view_expr callee.entry.value) (part (list (forest (map (inside view_expr) arguments.entry.items))) none))) }
    ensures told { IfOk result (λ e. told_expr e.value ≡ told_node at (told_expr callee.entry.value ∷ told_list (map (inside told_expr) arguments.entry.items) ∷ [])) }
    ensures span { IfOk result (λ e. expr_at e.value ≡ at) }
{
    boxed(alloc, Expr::Access(Access::New(at, callee, arguments)))
}

/// `new a`
pub fn new_without_arguments<'s>(
    alloc: Global,
    at: Option<Span>,
    callee: Box<Expr<'s>>,
) -> Result<Box<Expr<'s>>, AllocError>
    ensures view { IfOk result (λ e. view_expr e.value ≡ node (expression NewWithoutArguments) (part (view_expr callee.entry.value) none)) }
    ensures told { IfOk result (λ e. told_expr e.value ≡ told_node at (told_expr callee.entry.value ∷ [])) }
    ensures span { IfOk result (λ e. expr_at e.value ≡ at) }
{
    boxed(alloc, Expr::Access(Access::NewWithoutArguments(at, callee)))
}

/// `[a, b]`
pub fn array<'s>(
    alloc: Global,
    at: Option<Span>,
    items: Vec<Box<Expr<'s>>>,
) -> Result<Box<Expr<'s>>, AllocError>
    ensures view { IfOk result (λ e. view_expr e.value ≡ node (expression Array) (part (list (forest (map (inside view_expr) items.entry.items))) none)) }
    ensures told { IfOk result (λ e. told_expr e.value ≡ told_node at (told_list (map (inside told_expr) items.entry.items) ∷ [])) }
    ensures span { IfOk result (λ e. expr_at e.value ≡ at) }
{
    boxed(alloc, Expr::Array(at, items))
}

/// A hole of an array: nothing between two commas.
pub fn hole<'s>(alloc: Global) -> Result<Box<Expr<'s>>, AllocError>
    ensures view { IfOk result (λ e. view_expr e.value ≡ leaf Elision []) }
    ensures told { IfOk result (λ e. told_expr e.value ≡ tells [] no_tales) }
{
    boxed(alloc, Expr::Operation(Operation::Hole))
}

/// `...a`
pub fn spread<'s>(
    alloc: Global,
    at: Option<Span>,
    inner: Box<Expr<'s>>,
) -> Result<Box<Expr<'s>>, AllocError>
    ensures view { IfOk result (λ e. view_expr e.value ≡ node (expression Spread) (part (view_expr inner.entry.value) none)) }
    ensures told { IfOk result (λ e. told_expr e.value ≡ told_node at (told_expr inner.entry.value ∷ [])) }
    ensures span { IfOk result (λ e. expr_at e.value ≡ at) }
{
    boxed(alloc, Expr::Operation(Operation::Spread(at, inner)))
}

/// `{a, b: c}`
pub fn object<'s>(
    alloc: Global,
    at: Option<Span>,
    members: Vec<Box<Prop<'s>>>,
) -> Result<Box<Expr<'s>>, AllocError>
    ensures view { IfOk result (λ e. view_expr e.value ≡ node (expression Object) (part (list (forest (map (inside view_prop) members.entry.items))) none)) }
    ensures told { IfOk result (λ e. told_expr e.value ≡ told_node at (told_list (map (inside told_prop) members.entry.items) ∷ [])) }
    ensures span { IfOk result (λ e. expr_at e.value ≡ at) }
{
    boxed(alloc, Expr::Object(at, members))
}

/// `a: b` in an object
pub fn property<'s>(
    alloc: Global,
    at: Option<Span>,
    key: Key<'s>,
    value: Box<Expr<'s>>,
) -> Result<Box<Prop<'s>>, AllocError>
    ensures view { IfOk result (λ p. view_prop p.value ≡ node (expression Property) (part (view_key key.entry) (part (view_expr value.entry.value) none))) }
    ensures told { IfOk result (λ p. told_prop p.value ≡ told_node at (told_key key.entry ∷ told_expr value.entry.value ∷ [])) }
    ensures span { IfOk result (λ p. member_at p.value ≡ at) }
{
    boxed(alloc, Prop::Pair(at, key, value))
}

/// `a` in an object
pub fn shorthand<'s>(
    alloc: Global,
    at: Option<Span>,
    name: Ident<'s>,
) -> Result<Box<Prop<'s>>, AllocError>
    ensures view { IfOk result (λ p. view_prop p.value ≡ node (expression Shorthand) (part (name_of name.entry) none)) }
    ensures told { IfOk result (λ p. told_prop p.value ≡ told_node at (told_text name.entry.text ∷ [])) }
    ensures span { IfOk result (λ p. member_at p.value ≡ at) }
{
    boxed(alloc, Prop::Shorthand(at, name))
}

/// `...a` in an object
pub fn spread_member<'s>(
    alloc: Global,
    at: Option<Span>,
    inner: Box<Expr<'s>>,
) -> Result<Box<Prop<'s>>, AllocError>
    ensures view { IfOk result (λ p. view_prop p.value ≡ node (expression Spread) (part (view_expr inner.entry.value) none)) }
    ensures told { IfOk result (λ p. told_prop p.value ≡ told_node at (told_expr inner.entry.value ∷ [])) }
    ensures span { IfOk result (λ p. member_at p.value ≡ at) }
{
    boxed(alloc, Prop::Spread(at, inner))
}

/// A key that is a name.
pub fn name_key<'s>(name: Text<'s>) -> Key<'s>
    ensures view { view_key result ≡ word name.entry }
    ensures told { told_key result ≡ told_text name.entry }
{
    Key::Name(name)
}

/// A key that is a string or a number.
pub fn literal_key<'s>(kind: LiteralKind, text: Text<'s>) -> Key<'s>
    ensures view { view_key result ≡ leaf (kind_of_literal kind) (text_of text.entry) }
    ensures told { told_key result ≡ told_text text.entry }
{
    Key::Literal(kind, text)
}

/// A key that is computed: `[a]`
pub fn computed_key<'s>(at: Option<Span>, inner: Box<Expr<'s>>) -> Key<'s>
    ensures view { view_key result ≡ node (function ComputedKey) (part (view_expr inner.entry.value) none) }
    ensures told { told_key result ≡ told_node at (told_expr inner.entry.value ∷ []) }
{
    Key::Computed(at, inner)
}

/// `a.b`
pub fn member<'s>(
    alloc: Global,
    at: Option<Span>,
    object: Box<Expr<'s>>,
    name: Text<'s>,
) -> Result<Box<Expr<'s>>, AllocError>
    ensures view { IfOk result (λ e. view_expr e.value ≡ node (expression Member) (part (view_expr object.entry.value) (part (word name.entry) none))) }
    ensures told { IfOk result (λ e. told_expr e.value ≡ told_node at (told_expr object.entry.value ∷ told_text name.entry ∷ [])) }
    ensures span { IfOk result (λ e. expr_at e.value ≡ at) }
{
    boxed(alloc, Expr::Access(Access::Member(at, object, name)))
}

/// `<a b="c"/>`
pub fn element<'s>(
    alloc: Global,
    at: Option<Span>,
    tag: Tag<'s>,
    attributes: Vec<Box<Jsx<'s>>>,
) -> Result<Box<Expr<'s>>, AllocError>
    ensures view { IfOk result (λ e. view_expr e.value ≡ node (jsx Element) (part (view_tag tag.entry) (part (list (forest (map (inside view_jsx) attributes.entry.items))) none))) }
    ensures told { IfOk result (λ e. told_expr e.value ≡ told_node at (told_tag tag.entry ∷ told_list (map (inside told_jsx) attributes.entry.items) ∷ [])) }
    ensures span { IfOk result (λ e. expr_at e.value ≡ at) }
{
    let element = boxed(alloc, Jsx::Element(at, tag, attributes))?;
    boxed(alloc, Expr::Jsx(element))
}

/// A name that is bound, or assigned to.
pub fn bound_name<'s>(
    alloc: Global,
    at: Option<Span>,
    name: Ident<'s>,
) -> Result<Box<Pat<'s>>, AllocError>
    ensures view { IfOk result (λ p. (r : Role) → view_pattern p.value r ≡ name_of name.entry) }
    ensures told { IfOk result (λ p. told_pat p.value ≡ told_leaf at name.entry.text) }
    ensures span { IfOk result (λ p. pat_at p.value ≡ at) }
{
    boxed(alloc, Pat::Ident(at, name))
}

/// `a[b]`
pub fn index<'s>(
    alloc: Global,
    at: Option<Span>,
    object: Box<Expr<'s>>,
    index: Box<Expr<'s>>,
) -> Result<Box<Expr<'s>>, AllocError>
    ensures view { IfOk result (λ e. view_expr e.value ≡ node (expression Index) (part (view_expr object.entry.value) (part (view_expr index.entry.value) none))) }
    ensures told { IfOk result (λ e. told_expr e.value ≡ told_node at (told_expr object.entry.value ∷ told_expr index.entry.value ∷ [])) }
    ensures span { IfOk result (λ e. expr_at e.value ≡ at) }
{
    boxed(alloc, Expr::Access(Access::Index(at, object, index)))
}

/// `a?.b.c`
pub fn chain<'s>(
    alloc: Global,
    at: Option<Span>,
    base: Box<Expr<'s>>,
    links: Vec<Box<Link<'s>>>,
) -> Result<Box<Expr<'s>>, AllocError>
    ensures view { IfOk result (λ e. view_expr e.value ≡ node (expression Chain) (part (view_expr base.entry.value) (part (list (forest (map (inside view_link) links.entry.items))) none))) }
    ensures told { IfOk result (λ e. told_expr e.value ≡ told_node at (told_expr base.entry.value ∷ told_list (map (inside told_link) links.entry.items) ∷ [])) }
    ensures span { IfOk result (λ e. expr_at e.value ≡ at) }
{
    boxed(alloc, Expr::Access(Access::Chain(at, base, links)))
}

/// A link of a chain: `?.a`, `.a`
pub fn name_link<'s>(
    alloc: Global,
    at: Option<Span>,
    form: LinkForm,
    name: Text<'s>,
) -> Result<Box<Link<'s>>, AllocError>
    ensures view { IfOk result (λ l. view_link l.value ≡ node (expression (NameLink (is_optional form))) (part (word name.entry) none)) }
    ensures told { IfOk result (λ l. told_link l.value ≡ told_node at (told_text name.entry ∷ [])) }
{
    boxed(alloc, Link::Member(at, form, name))
}

/// A link of a chain: `?.[a]`, `[a]`
pub fn index_link<'s>(
    alloc: Global,
    at: Option<Span>,
    form: LinkForm,
    index: Box<Expr<'s>>,
) -> Result<Box<Link<'s>>, AllocError>
    ensures view { IfOk result (λ l. view_link l.value ≡ node (expression (IndexLink (is_optional form))) (part (view_expr index.entry.value) none)) }
    ensures told { IfOk result (λ l. told_link l.value ≡ told_node at (told_expr index.entry.value ∷ [])) }
{
    boxed(alloc, Link::Index(at, form, index))
}

/// A link of a chain: `?.(a, b)`, `(a, b)`
pub fn call_link<'s>(
    alloc: Global,
    at: Option<Span>,
    form: LinkForm,
    arguments: Vec<Box<Expr<'s>>>,
) -> Result<Box<Link<'s>>, AllocError>
    ensures view { IfOk result (λ l. view_link l.value ≡ node (expression (CallLink (is_optional form))) (part (list (forest (map (inside view_expr) arguments.entry.items))) none)) }
    ensures told { IfOk result (λ l. told_link l.value ≡ told_node at (told_list (map (inside told_expr) arguments.entry.items) ∷ [])) }
{
    boxed(alloc, Link::Call(at, form, arguments))
}

/// `a + b`
pub fn binary<'s>(
    alloc: Global,
    at: Option<Span>,
    operator: BinaryOp,
    left: Box<Expr<'s>>,
    right: Box<Expr<'s>>,
) -> Result<Box<Expr<'s>>, AllocError>
    ensures view { IfOk result (λ e. view_expr e.value ≡ node (expression (Binary (binary_of operator))) (part (view_expr left.entry.value) (part (view_expr right.entry.value) none))) }
    ensures told { IfOk result (λ e. told_expr e.value ≡ told_node at (told_expr left.entry.value ∷ told_expr right.entry.value ∷ [])) }
    ensures span { IfOk result (λ e. expr_at e.value ≡ at) }
{
    boxed(
        alloc,
        Expr::Operation(Operation::Binary(at, operator, left, right)),
    )
}

/// `a ? b : c`
pub fn conditional<'s>(
    alloc: Global,
    at: Option<Span>,
    test: Box<Expr<'s>>,
    then: Box<Expr<'s>>,
    other: Box<Expr<'s>>,
) -> Result<Box<Expr<'s>>, AllocError>
    ensures view { IfOk result (λ e. view_expr e.value ≡ node (expression Cond) (part (view_expr test.entry.value) (part (view_expr then.entry.value) (part (view_expr other.entry.value) none)))) }
    ensures told { IfOk result (λ e. told_expr e.value ≡ told_node at (told_expr test.entry.value ∷ told_expr then.entry.value ∷ told_expr other.entry.value ∷ [])) }
    ensures span { IfOk result (λ e. expr_at e.value ≡ at) }
{
    boxed(
        alloc,
        Expr::Operation(Operation::Cond(at, test, then, other)),
    )
}

/// `-a`
pub fn unary<'s>(
    alloc: Global,
    at: Option<Span>,
    operator: UnaryOp,
    operand: Box<Expr<'s>>,
) -> Result<Box<Expr<'s>>, AllocError>
    ensures view { IfOk result (λ e. view_expr e.value ≡ node (expression (Unary (unary_of operator))) (part (view_expr operand.entry.value) none)) }
    ensures told { IfOk result (λ e. told_expr e.value ≡ told_node at (told_expr operand.entry.value ∷ [])) }
    ensures span { IfOk result (λ e. expr_at e.value ≡ at) }
{
    boxed(
        alloc,
        Expr::Operation(Operation::Unary(at, operator, operand)),
    )
}

/// `a++`
pub fn postfix_update<'s>(
    alloc: Global,
    at: Option<Span>,
    operator: UpdateOp,
    target: Box<Pat<'s>>,
) -> Result<Box<Expr<'s>>, AllocError>
    ensures view { IfOk result (λ e. view_expr e.value ≡ node (expression (PostfixUpdate (step_of operator))) (part (view_pattern target.entry.value Assigns) none)) }
    ensures told { IfOk result (λ e. told_expr e.value ≡ told_node at (told_pat target.entry.value ∷ [])) }
    ensures span { IfOk result (λ e. expr_at e.value ≡ at) }
{
    boxed(
        alloc,
        Expr::Operation(Operation::Update(at, operator, UpdateSide::After, target)),
    )
}

/// `++a`
pub fn prefix_update<'s>(
    alloc: Global,
    at: Option<Span>,
    operator: UpdateOp,
    target: Box<Pat<'s>>,
) -> Result<Box<Expr<'s>>, AllocError>
    ensures view { IfOk result (λ e. view_expr e.value ≡ node (expression (PrefixUpdate (step_of operator))) (part (view_pattern target.entry.value Assigns) none)) }
    ensures told { IfOk result (λ e. told_expr e.value ≡ told_node at (told_pat target.entry.value ∷ [])) }
    ensures span { IfOk result (λ e. expr_at e.value ≡ at) }
{
    boxed(
        alloc,
        Expr::Operation(Operation::Update(at, operator, UpdateSide::Before, target)),
    )
}

/// `import(a)`
pub fn import_call<'s>(
    alloc: Global,
    at: Option<Span>,
    source: Box<Expr<'s>>,
) -> Result<Box<Expr<'s>>, AllocError>
    ensures view { IfOk result (λ e. view_expr e.value ≡ node (expression ImportCall) (part (view_expr source.entry.value) none)) }
    ensures told { IfOk result (λ e. told_expr e.value ≡ told_node at (told_expr source.entry.value ∷ [])) }
    ensures span { IfOk result (λ e. expr_at e.value ≡ at) }
{
    boxed(alloc, Expr::Access(Access::ImportCall(at, source)))
}

/// `a += b`
pub fn op_assign<'s>(
    alloc: Global,
    at: Option<Span>,
    operator: AssignOp,
    target: Box<Pat<'s>>,
    value: Box<Expr<'s>>,
) -> Result<Box<Expr<'s>>, AllocError>
    ensures view { IfOk result (λ e. view_expr e.value ≡ node (expression (OpAssign (assign_of operator))) (part (view_pattern target.entry.value Assigns) (part (view_expr value.entry.value) none))) }
    ensures told { IfOk result (λ e. told_expr e.value ≡ told_node at (told_pat target.entry.value ∷ told_expr value.entry.value ∷ [])) }
    ensures span { IfOk result (λ e. expr_at e.value ≡ at) }
{
    boxed(
        alloc,
        Expr::Operation(Operation::OpAssign(at, operator, target, value)),
    )
}

/// `a = b`
pub fn assign<'s>(
    alloc: Global,
    at: Option<Span>,
    target: Box<Pat<'s>>,
    value: Box<Expr<'s>>,
) -> Result<Box<Expr<'s>>, AllocError>
    ensures view { IfOk result (λ e. view_expr e.value ≡ node (expression Assign) (part (view_pattern target.entry.value Assigns) (part (view_expr value.entry.value) none))) }
    ensures told { IfOk result (λ e. told_expr e.value ≡ told_node at (told_pat target.entry.value ∷ told_expr value.entry.value ∷ [])) }
    ensures span { IfOk result (λ e. expr_at e.value ≡ at) }
{
    boxed(alloc, Expr::Operation(Operation::Assign(at, target, value)))
}

/// What is assigned to, of an expression that is no name: `a.b`.
pub fn target<'s>(alloc: Global, expr: Box<Expr<'s>>) -> Result<Box<Pat<'s>>, AllocError>
    ensures view { IfOk result (λ p. (r : Role) → view_pattern p.value r ≡ view_expr expr.entry.value) }
    ensures told { IfOk result (λ p. told_pat p.value ≡ told_expr expr.entry.value) }
{
    boxed(alloc, Pat::Target(expr))
}

/// A target in parentheses: `(a)`
pub fn paren_target<'s>(
    alloc: Global,
    at: Option<Span>,
    inner: Box<Pat<'s>>,
) -> Result<Box<Pat<'s>>, AllocError>
    ensures view { IfOk result (λ p. (r : Role) → view_pattern p.value r ≡ node (function ParenTarget) (part (view_pattern inner.entry.value r) none)) }
    ensures told { IfOk result (λ p. told_pat p.value ≡ told_pat inner.entry.value) }
{
    boxed(alloc, Pat::Paren(at, inner))
}
