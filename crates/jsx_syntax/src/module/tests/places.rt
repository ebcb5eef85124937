//! Places: of a text that begins at another place than 0, and of the word `default`.

use super::DEEP;
use crate::ParseError;
use crate::module::parse;
use jsx_base::{BytePos, Span};
use jsx_tree::{Expr, Goal, Item, Program, Stmt, Text};
use std::alloc::Global;

/// The place of the first byte of each text.
const START: BytePos = BytePos(100);

/// The place of a name that stands alone.
fn place_of_name(expr: &Expr) -> Option<u32> {
    let Expr::Ident(_, name) = expr else {
        return None;
    };
    match &name.text {
        Text::Read(_, at) => Some(at.0),
        Text::Made(_, _) => None,
    }
}

fn place_of_stmt(stmt: &Stmt) -> Option<u32> {
    match stmt {
        Stmt::Expr(_, expr) => place_of_name(expr),
        _ => None,
    }
}

/// The place of an item that is a name alone, or of the word `default` of an export.
fn place_of_item(item: &Item) -> Option<u32> {
    match item {
        Item::ExportDefaultFn(_, word, _, _, _, _) => Some(word.0),
        Item::ExportDefaultClass(_, word, _) => Some(word.0),
        Item::ExportDefaultExpr(_, word, _) => Some(word.0),
        Item::Stmt(stmt) => place_of_stmt(stmt),
        _ => None,
    }
}

fn place_of_last(alloc: Global, text: &str) -> Option<u32> {
    if text.len() >= 1000 {
        return None;
    }
    match parse(alloc, text, START, Goal::Module, DEEP) {
        Ok(Program::Module(module)) => match module.body.last() {
            Some(item) => place_of_item(item),
            None => None,
        },
        _ => None,
    }
}

#[test]
fn tells_places(rt: HostRuntime) {
    for (text, want) in &[
        ("a", Some(100)),
        (" /* b */ a;", Some(109)),
        ("b;\na", Some(103)),
        ("\u{e9};a", Some(103)),
        ("export default a;", Some(107)),
        ("export/**/default function () {}", Some(110)),
        ("a;export\n default class {}", Some(110)),
        (";", None),
    ] {
        assert!(rt; place_of_last(rt.alloc(), text) == *want, "at {text}");
    }
}

/// The place at which a text is refused.
fn refused_at(alloc: Global, text: &str, depth: u32) -> Option<u32> {
    if text.len() >= 1000 {
        return None;
    }
    match parse(alloc, text, START, Goal::Module, depth) {
        Err(ParseError::Syntax(at)) => Some(at.0),
        Err(ParseError::TooDeep(at)) => Some(at.0),
        _ => None,
    }
}

#[test]
fn refuses_at_places(rt: HostRuntime) {
    for (text, want) in &[
        (")", Some(100)),
        ("a b", Some(102)),
        ("export default", Some(114)),
        ("export default if", Some(115)),
        ("a", None),
    ] {
        assert!(rt; refused_at(rt.alloc(), text, DEEP) == *want, "at {text}");
    }
    assert!(rt; refused_at(rt.alloc(), "a;(b)", 1) == Some(103));
}

fn span(alloc: Global, text: &str, goal: Goal) -> Option<Span> {
    if text.len() >= 1000 {
        return None;
    }
    match parse(alloc, text, START, goal, DEEP) {
        Ok(Program::Module(module)) => Some(module.span),
        Ok(Program::Script(script)) => Some(script.span),
        Err(_) => None,
    }
}

#[test]
fn spans_the_text(rt: HostRuntime) {
    let whole = Span {
        lo: START,
        hi: BytePos(104),
    };
    assert!(rt; span(rt.alloc(), " a; ", Goal::Module) == Some(whole));
    assert!(rt; span(rt.alloc(), " a; ", Goal::Script) == Some(whole));
}
