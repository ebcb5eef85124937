//! Which expressions get a pair, and early errors on names, over trees made by hand.

use crate::pair::boxed;
use crate::{ScopeError, early, parenthesise};
use jsx_base::{BytePos, Span};
use jsx_tree::{
    Access, DeclareWord, Expr, Ident, LiteralKind, Operation, Pat, Program, Script, Stmt, Text,
    Word,
};
use std::alloc::{AllocError, Global};
use std::test::Fail;

fn this(alloc: Global) -> Result<Box<Expr<'static>>, AllocError> {
    boxed(alloc, Expr::Word(None, Word::This))
}

fn object(alloc: Global) -> Result<Box<Expr<'static>>, AllocError> {
    boxed(alloc, Expr::Object(None, Vec::new(alloc)))
}

fn string(alloc: Global) -> Result<Box<Expr<'static>>, AllocError> {
    let text = Text::Read("\"a\"", BytePos(0));
    boxed(alloc, Expr::Literal(None, LiteralKind::Str, text))
}

fn member(alloc: Global, object: Box<Expr<'static>>) -> Result<Box<Expr<'static>>, AllocError> {
    let name = Text::Read("a", BytePos(0));
    boxed(alloc, Expr::Access(Access::Member(None, object, name)))
}

fn number(alloc: Global) -> Result<Box<Expr<'static>>, AllocError> {
    let text = Text::Read("1", BytePos(0));
    boxed(alloc, Expr::Literal(None, LiteralKind::Num, text))
}

fn sequence(alloc: Global) -> Result<Box<Expr<'static>>, AllocError> {
    let mut items = Vec::new(alloc);
    items.push(this(alloc)?)?;
    items.push(this(alloc)?)?;
    boxed(alloc, Expr::Operation(Operation::Seq(None, items)))
}

fn script(alloc: Global, stmt: Box<Stmt<'static>>) -> Result<Program<'static>, AllocError> {
    let mut body = Vec::new(alloc);
    body.push(stmt)?;
    Ok(Program::Script(Script {
        span: Span::new(BytePos(0), BytePos(0)),
        directives: Vec::new(alloc),
        body,
    }))
}

fn add(program: &mut Program<'static>, stmt: Box<Stmt<'static>>) -> Result<(), AllocError> {
    if let Program::Script(script) = program {
        script.body.push(stmt)?;
    }
    Ok(())
}

fn is_pair(expr: &Expr<'_>) -> bool {
    matches!(expr, Expr::Paren(..))
}

/// Whether the object of a member is in a pair.
fn is_held(expr: &Expr<'_>) -> bool {
    match expr {
        Expr::Access(Access::Member(_, object, _)) => is_pair(object),
        _ => false,
    }
}

/// The one statement of a script, which is an expression: whether it is in a pair, and whether it is a member whose object is.
fn pairs(program: &Program<'_>) -> (bool, bool) {
    match program {
        Program::Script(script) => match script.body.first() {
            Some(stmt) => pairs_of(stmt),
            None => (false, false),
        },
        Program::Module(_) => (false, false),
    }
}

fn pairs_of(stmt: &Stmt<'_>) -> (bool, bool) {
    match stmt {
        Stmt::Expr(_, expr) => (is_pair(expr), is_held(expr)),
        _ => (false, false),
    }
}

/// Where an expression that is a statement gets pairs.
fn paired(alloc: Global, expr: Box<Expr<'static>>) -> Result<(bool, bool), AllocError> {
    let mut program = script(alloc, boxed(alloc, Stmt::Expr(None, expr))?)?;
    parenthesise(alloc, &mut program)?;
    Ok(pairs(&program))
}

#[test]
fn statements_that_begin_as_another_get_a_pair(rt: HostRuntime) -> Result<(), Fail> {
    let alloc = rt.alloc();
    assert!(rt; paired(alloc, object(alloc)?) == Ok((true, false)));
    assert!(rt; paired(alloc, member(alloc, object(alloc)?)?) == Ok((true, false)));
    assert!(rt; paired(alloc, string(alloc)?) == Ok((true, false)));
    assert!(rt; paired(alloc, this(alloc)?) == Ok((false, false)));
    Ok(())
}

#[test]
fn objects_of_members_get_a_pair(rt: HostRuntime) -> Result<(), Fail> {
    let alloc = rt.alloc();
    assert!(rt; paired(alloc, member(alloc, number(alloc)?)?) == Ok((false, true)));
    assert!(rt; paired(alloc, member(alloc, sequence(alloc)?)?) == Ok((false, true)));
    assert!(rt; paired(alloc, member(alloc, string(alloc)?)?) == Ok((false, false)));
    assert!(rt; paired(alloc, sequence(alloc)?) == Ok((false, false)));
    Ok(())
}

/// `let a;`, with the name at a place.
fn declaration(alloc: Global, at: u32) -> Result<Box<Stmt<'static>>, AllocError> {
    let name = Ident {
        text: Text::Read("a", BytePos(at)),
    };
    let pattern = boxed(alloc, Pat::Ident(None, name))?;
    let mut declarators = Vec::new(alloc);
    declarators.push(boxed(alloc, Pat::Binding(None, pattern, None))?)?;
    boxed(alloc, Stmt::Var(None, DeclareWord::Let, declarators))
}

/// `eval()`, with the name at a place.
fn call_of_eval(alloc: Global, at: u32) -> Result<Box<Stmt<'static>>, AllocError> {
    let name = Ident {
        text: Text::Read("eval", BytePos(at)),
    };
    let callee = boxed(alloc, Expr::Ident(None, name))?;
    let call = boxed(
        alloc,
        Expr::Access(Access::Call(None, callee, Vec::new(alloc))),
    )?;
    boxed(alloc, Stmt::Expr(None, call))
}

#[test]
fn early_errors_are_told_with_their_places(rt: HostRuntime) -> Result<(), Fail> {
    let alloc = rt.alloc();
    let mut program = script(alloc, declaration(alloc, 4)?)?;
    assert!(rt; early(alloc, &program) == Ok(()));
    add(&mut program, call_of_eval(alloc, 7)?)?;
    assert!(rt; early(alloc, &program) == Err(ScopeError::DirectEval(BytePos(7))));
    add(&mut program, declaration(alloc, 19)?)?;
    assert!(rt; early(alloc, &program) == Err(ScopeError::Scope(BytePos(19))));
    Ok(())
}
