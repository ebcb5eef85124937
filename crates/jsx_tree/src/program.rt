//! Programs, and the items of a module (ECMA-262 section 16).

use crate::text::{Ident, Text};
use crate::tree::{Expr, Pat, Stmt};
use jsx_base::{BytePos, Span};

type At = Option<Span>;

/// A specifier of an import, or of an export: one name, or `a as b`.
#[derive(Drop)]
pub enum Specifier<'s> {
    Same(At, Text<'s>),
    As(At, Text<'s>, Text<'s>),
}

/// What an import binds.
#[derive(Drop)]
pub enum ImportClause<'s> {
    /// `import a from "m"`
    Default(Ident<'s>),
    Names(ImportNames<'s>),
    /// `import a, { b } from "m"`
    Both(At, Ident<'s>, ImportNames<'s>),
}

#[derive(Drop)]
pub enum ImportNames<'s> {
    /// `* as a`
    All(At, Ident<'s>),
    /// `{ a, b as c }`
    List(At, Vec<Specifier<'s>>),
}

/// An item of a module.
#[derive(Drop)]
pub enum Item<'s> {
    Stmt(Box<Stmt<'s>>),
    /// `import "m";`
    ImportBare(At, Text<'s>),
    /// `import a from "m";`
    Import(At, ImportClause<'s>, Text<'s>),
    /// `export { a };`
    ExportNames(At, Vec<Specifier<'s>>),
    /// `export { a } from "m";`
    ExportFrom(At, Vec<Specifier<'s>>, Text<'s>),
    /// `export * from "m";`
    ExportAll(At, Text<'s>),
    /// `export * as a from "m";`
    ExportAllAs(At, Text<'s>, Text<'s>),
    /// `export const a = 1;`
    ExportDecl(At, Box<Stmt<'s>>),
    /// `export default function () {}`, with the place of `default`, as in the two below.
    ExportDefaultFn(
        At,
        BytePos,
        Option<Ident<'s>>,
        Vec<Box<Pat<'s>>>,
        Vec<Text<'s>>,
        Vec<Box<Stmt<'s>>>,
    ),
    /// `export default class {}`
    ExportDefaultClass(At, BytePos, Box<Expr<'s>>),
    /// `export default a;`
    ExportDefaultExpr(At, BytePos, Box<Expr<'s>>),
}

/// A module: its directives, each the text of a string, and its items.
#[derive(Drop)]
pub struct Module<'s> {
    pub span: Span,
    pub directives: Vec<Text<'s>>,
    pub body: Vec<Item<'s>>,
}

/// A script: its directives, each the text of a string, and its statements.
#[derive(Drop)]
pub struct Script<'s> {
    pub span: Span,
    pub directives: Vec<Text<'s>>,
    pub body: Vec<Box<Stmt<'s>>>,
}

#[derive(Drop)]
pub enum Program<'s> {
    Module(Module<'s>),
    Script(Script<'s>),
}
