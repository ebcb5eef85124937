//! The calls that make elements: `<div/>` is `React.createElement("div", null)` (React's `createElement`).

ghost use Rattle.std.specs.Prelude.{◌≡◌, ◌++◌, IfOk, OnOk, MatchOption, IsTrue, [], ◌∷◌, codes, map};
ghost use Rattle.jsx_base.specs.Token.{StringLiteral};
ghost use Rattle.jsx_tree.specs.Kinds.{leaf};
ghost use Rattle.react_compile.specs.Made.{is_ascii, quoted};
ghost use Rattle.std.specs.Str.{chars};
ghost use Rattle.jsx_tree.specs.View.{text_of, inside, view_expr, view_jsx};
ghost use Rattle.jsx_visit.specs.Visit.{changed};
ghost use Rattle.react_compile.specs.Lowering.{name, tag_type, pragma, element_call, lower_node};

use crate::literal::quoted;
use crate::tag::is_string_tag;
use jsx_base::{BytePos, Span};
use jsx_tree::{Access, Expr, Ident, Jsx, LiteralKind, Tag, Text, Word};
use std::alloc::{AllocError, Global};

/// A value in a box.
fn boxed<T: Drop>(alloc: Global, value: T) -> Result<Box<T>, AllocError>
    ensures { IfOk result (λ b. b.value ≡ value) }
{
    match Box::new(alloc, value) {
        Ok(boxed) => Ok(boxed),
        Err(_) => Err(AllocError),
    }
}

/// The characters of a text.
fn piece<'a>(text: &'a Text<'_>) -> &'a str
    ensures { chars result.now ≡ text_of text.now }
{
    match text {
        Text::Read(piece, _) => piece,
        Text::Made(piece, _) => piece.as_str(),
    }
}

/// The place that a text comes from.
fn place(text: &Text<'_>) -> Option<BytePos> {
    match text {
        Text::Read(_, at) => Some(*at),
        Text::Made(_, at) => *at,
    }
}

/// A text that is made.
fn made<'s>(alloc: Global, text: &str, at: Option<BytePos>) -> Result<Text<'s>, AllocError>
    ensures { IfOk result (λ t. text_of t ≡ chars text.now) }
{
    Ok(Text::Made(String::from_str(alloc, text)?, at))
}

/// A word that is made.
#[tactic(auto, using(crate::proofs::Characters::chars_ascii))]
fn word<'s>(alloc: Global, word: &str) -> Result<Text<'s>, AllocError>
    requires { IsTrue (is_ascii word.now) }
    ensures { IfOk result (λ t. text_of t ≡ word.now) }
{
    made(alloc, word, None)
}

/// A copy of a text.
fn copied<'s>(alloc: Global, text: &Text<'s>) -> Result<Text<'s>, AllocError>
    ensures { IfOk result (λ t. text_of t ≡ text_of text.now) }
{
    match text {
        Text::Read(piece, at) => Ok(Text::Read(piece, *at)),
        Text::Made(piece, at) => made(alloc, piece, *at),
    }
}

/// A reference by a name.
#[tactic(auto, using(crate::proofs::Views::views))]
fn reference<'s>(alloc: Global, text: Text<'s>) -> Result<Box<Expr<'s>>, AllocError>
    ensures { IfOk result (λ e. view_expr e.value ≡ name (text_of text.entry)) }
{
    boxed(alloc, Expr::Ident(None, Ident { text }))
}

/// A string.
#[tactic(auto, using(crate::proofs::Views::views))]
fn string<'s>(alloc: Global, text: &Text<'_>) -> Result<Box<Expr<'s>>, AllocError>
    ensures { IfOk result (λ e. view_expr e.value ≡ leaf StringLiteral (quoted (text_of text.now))) }
{
    let literal = Text::Made(quoted(alloc, piece(text))?, place(text));
    boxed(alloc, Expr::Literal(None, LiteralKind::Str, literal))
}

/// What is called: `React.createElement`.
#[tactic(auto, using(crate::proofs::Views::views))]
fn callee<'s>(alloc: Global) -> Result<Box<Expr<'s>>, AllocError>
    ensures { IfOk result (λ e. view_expr e.value ≡ pragma) }
{
    let react = reference(alloc, word(alloc, "React")?)?;
    let member = word(alloc, "createElement")?;
    boxed(alloc, Expr::Access(Access::Member(None, react, member)))
}

/// What an element is made of: a string, or a reference.
fn type_of<'s>(alloc: Global, tag: &Text<'s>) -> Result<Box<Expr<'s>>, AllocError>
    ensures { IfOk result (λ e. view_expr e.value ≡ tag_type (text_of tag.now)) }
{
    if is_string_tag(piece(tag)) {
        string(alloc, tag)
    } else {
        reference(alloc, copied(alloc, tag)?)
    }
}

/// The arguments: the type, and `null` for no properties.
#[tactic(auto, using(crate::proofs::Views::views))]
fn arguments<'s>(alloc: Global, made_of: Box<Expr<'s>>) -> Result<Vec<Box<Expr<'s>>>, AllocError>
    ensures { IfOk result (λ v. map (inside view_expr) v.items ≡ view_expr made_of.entry.value ∷ name (codes "null") ∷ []) }
{
    let null = boxed(alloc, Expr::Word(None, Word::Null))?;
    let mut arguments = Vec::new(alloc);
    push(&mut arguments, made_of)?;
    push(&mut arguments, null)?;
    Ok(arguments)
}

fn push<'s>(exprs: &mut Vec<Box<Expr<'s>>>, expr: Box<Expr<'s>>) -> Result<(), AllocError>
    ensures { OnOk result (exprs.new.items ≡ exprs.old.items ++ expr.entry ∷ []) }
{
    match exprs.push(expr) {
        Ok(()) => Ok(()),
        Err(_) => Err(AllocError),
    }
}

/// The call that makes an element of a tag.
#[tactic(auto, using(crate::proofs::Views::views))]
fn call<'s>(alloc: Global, at: Option<Span>, tag: &Text<'s>) -> Result<Box<Expr<'s>>, AllocError>
    ensures { IfOk result (λ e. view_expr e.value ≡ element_call (text_of tag.now)) }
{
    let arguments = arguments(alloc, type_of(alloc, tag)?)?;
    let callee = callee(alloc)?;
    boxed(alloc, Expr::Access(Access::Call(at, callee, arguments)))
}

#[tactic(auto, using(crate::proofs::Views::views))]
fn call_of_jsx<'s>(alloc: Global, jsx: &Jsx<'s>) -> Result<Option<Box<Expr<'s>>>, AllocError>
    ensures { IfOk result (λ o. MatchOption o (changed lower_node (view_jsx jsx.now) ≡ view_jsx jsx.now) (λ e. view_expr e.value ≡ changed lower_node (view_jsx jsx.now))) }
{
    match jsx {
        Jsx::Element(at, Tag::Name(tag), _) => Ok(Some(call(alloc, *at, tag)?)),
        _ => Ok(None),
    }
}

/// The call that an expression becomes, where it is an element.
#[tactic(auto, using(crate::proofs::Views::views))]
pub(crate) fn call_of<'s>(
    alloc: Global,
    expr: &Expr<'s>,
) -> Result<Option<Box<Expr<'s>>>, AllocError>
    ensures { IfOk result (λ o. MatchOption o (changed lower_node (view_expr expr.now) ≡ view_expr expr.now) (λ e. view_expr e.value ≡ changed lower_node (view_expr expr.now))) }
{
    match expr {
        Expr::Jsx(jsx) => call_of_jsx(alloc, jsx),
        _ => Ok(None),
    }
}
