//! The text of programs that are made by hand.

use crate::print;
use jsx_base::{BytePos, Comments, SingleThreadedComments, Span};
use jsx_tree::{
    Access, Expr, Ident, Item, LiteralKind, Module, Operation, Program, Stmt, Text, UnaryOp,
};
use std::alloc::{AllocError, Global};

fn boxed<T: Drop>(alloc: Global, value: T) -> Result<Box<T>, AllocError> {
    match Box::new(alloc, value) {
        Ok(boxed) => Ok(boxed),
        Err(_) => Err(AllocError),
    }
}

fn name(alloc: Global, text: &'static str) -> Result<Box<Expr<'static>>, AllocError> {
    let text = Text::Read(text, BytePos(0));
    boxed(alloc, Expr::Ident(None, Ident { text }))
}

fn argument(alloc: Global) -> Result<Vec<Box<Expr<'static>>>, AllocError> {
    let mut arguments = Vec::new(alloc);
    arguments.push(name(alloc, "b")?)?;
    Ok(arguments)
}

/// A call of this with `b`, at this place.
fn call(
    alloc: Global,
    lo: u32,
    callee: Box<Expr<'static>>,
) -> Result<Box<Expr<'static>>, AllocError> {
    let arguments = argument(alloc)?;
    let at = Some(Span::new(BytePos(lo), BytePos(lo)));
    boxed(alloc, Expr::Access(Access::Call(at, callee, arguments)))
}

fn minus(alloc: Global, operand: Box<Expr<'static>>) -> Result<Box<Expr<'static>>, AllocError> {
    boxed(
        alloc,
        Expr::Operation(Operation::Unary(None, UnaryOp::Negative, operand)),
    )
}

/// `- -a(b)`, whose call is at 7.
fn minuses(alloc: Global) -> Result<Box<Expr<'static>>, AllocError> {
    minus(alloc, minus(alloc, call(alloc, 7, name(alloc, "a")?)?)?)
}

fn zero(alloc: Global) -> Result<Box<Expr<'static>>, AllocError> {
    let text = Text::Read("0", BytePos(0));
    boxed(alloc, Expr::Literal(None, LiteralKind::Num, text))
}

/// `0, a(b)`, whose call is at 7.
fn sequence(alloc: Global) -> Result<Box<Expr<'static>>, AllocError> {
    let mut parts = Vec::new(alloc);
    parts.push(zero(alloc)?)?;
    parts.push(call(alloc, 7, name(alloc, "a")?)?)?;
    boxed(alloc, Expr::Operation(Operation::Seq(None, parts)))
}

/// `(0, a(b))(b)(b)`, whose calls are at 7, at 3 and at 3.
fn calls(alloc: Global) -> Result<Box<Expr<'static>>, AllocError> {
    let callee = boxed(alloc, Expr::Paren(None, sequence(alloc)?))?;
    call(alloc, 3, call(alloc, 3, callee)?)
}

fn block(alloc: Global, expr: Box<Expr<'static>>) -> Result<Box<Stmt<'static>>, AllocError> {
    let mut block = Vec::new(alloc);
    block.push(boxed(alloc, Stmt::Expr(None, expr))?)?;
    boxed(alloc, Stmt::Block(None, block))
}

fn directives(alloc: Global) -> Result<Vec<Text<'static>>, AllocError> {
    let mut directives = Vec::new(alloc);
    directives.push(Text::Read("'use x'", BytePos(0)))?;
    Ok(directives)
}

/// A module with a directive, and this in a block.
fn module(alloc: Global, expr: Box<Expr<'static>>) -> Result<Program<'static>, AllocError> {
    let mut body = Vec::new(alloc);
    body.push(Item::Stmt(block(alloc, expr)?))?;
    Ok(Program::Module(Module {
        span: Span::new(BytePos(0), BytePos(0)),
        directives: directives(alloc)?,
        body,
    }))
}

/// Comments with a mark at this place.
fn mark_at(alloc: Global, lo: u32) -> Result<SingleThreadedComments, AllocError> {
    let mut comments = SingleThreadedComments::new(alloc);
    comments.add_pure_comment(BytePos(lo))?;
    Ok(comments)
}

fn is_text(
    alloc: Global,
    program: &Program<'_>,
    comments: &SingleThreadedComments,
    text: &str,
) -> Result<bool, AllocError> {
    let printed = print(alloc, program, comments)?;
    Ok(printed.text.as_str() == text)
}

fn prints(
    alloc: Global,
    expr: Box<Expr<'static>>,
    lo: u32,
    text: &str,
) -> Result<bool, AllocError> {
    let program = module(alloc, expr)?;
    let comments = mark_at(alloc, lo)?;
    is_text(alloc, &program, &comments, text)
}

fn lays_out(alloc: Global) -> Result<bool, AllocError> {
    prints(alloc, minuses(alloc)?, 1, "'use x';\n{\n    - -a(b);\n}\n")
}

fn marks_a_call(alloc: Global) -> Result<bool, AllocError> {
    prints(
        alloc,
        minuses(alloc)?,
        7,
        "'use x';\n{\n    - -/*#__PURE__*/ a(b);\n}\n",
    )
}

fn marks_before_a_parenthesis(alloc: Global) -> Result<bool, AllocError> {
    prints(
        alloc,
        calls(alloc)?,
        3,
        "'use x';\n{\n    /*#__PURE__*/ (0, a(b))(b)(b);\n}\n",
    )
}

fn marks_the_call_that_is_named(alloc: Global) -> Result<bool, AllocError> {
    prints(
        alloc,
        calls(alloc)?,
        7,
        "'use x';\n{\n    (0, /*#__PURE__*/ a(b))(b)(b);\n}\n",
    )
}

#[test]
fn a_program_is_laid_out(rt: HostRuntime) {
    assert!(rt; lays_out(rt.alloc()) == Ok(true));
}

#[test]
fn a_call_for_which_the_comments_have_a_mark_gets_it(rt: HostRuntime) {
    assert!(rt; marks_a_call(rt.alloc()) == Ok(true));
}

#[test]
fn a_mark_stands_before_the_first_token_of_a_call_and_once(rt: HostRuntime) {
    assert!(rt; marks_before_a_parenthesis(rt.alloc()) == Ok(true));
}

#[test]
fn a_mark_in_parentheses_stands_before_the_call_in_them(rt: HostRuntime) {
    assert!(rt; marks_the_call_that_is_named(rt.alloc()) == Ok(true));
}
