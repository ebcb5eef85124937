//! The nodes of a tree. A node that was read has its span.
//!
//! The types of the circle are few, since what a check of a function costs grows fast with their number. Lists are of boxes,
//! so that a function holds a box and not a node; what makes an expression large is in a box too. How they are let go is
//! written here: what is derived would be proved again in each crate that lets one go.

use crate::operator::{AssignOp, BinaryOp, UnaryOp, UpdateOp, UpdateSide};
use crate::text::{DeclareWord, Ident, LinkForm, LiteralKind, Placement, Text, Word};
use jsx_base::Span;

type At = Option<Span>;

/// An expression (ECMA-262 section 13).
#[cycle(tree)]
pub enum Expr<'s> {
    Ident(At, Ident<'s>),
    Literal(At, LiteralKind, Text<'s>),
    Word(At, Word),
    Operation(Operation<'s>),
    Access(Access<'s>),
    /// `[a, , ...b]`
    Array(At, Vec<Box<Expr<'s>>>),
    /// `{ a, b: c }`
    Object(At, Vec<Box<Prop<'s>>>),
    /// The pieces of a template, and the expressions between them.
    Template(At, Vec<Text<'s>>, Vec<Box<Expr<'s>>>),
    /// `function f(a) {}`: its name, parameters, directives and statements
    Function(At, Option<Box<Ident<'s>>>, Vec<Box<Pat<'s>>>, Vec<Text<'s>>, Vec<Box<Stmt<'s>>>),
    /// `class A extends B {}`
    Class(At, Option<Box<Ident<'s>>>, Option<Box<Expr<'s>>>, Vec<Box<Prop<'s>>>),
    Jsx(Box<Jsx<'s>>),
    /// `(a)`
    Paren(At, Box<Expr<'s>>),
}

/// Operators and arrows, and what may stand among expressions: a spread, a hole.
#[cycle(tree)]
pub enum Operation<'s> {
    /// `a, b`
    Seq(At, Vec<Box<Expr<'s>>>),
    /// `a = b`
    Assign(At, Box<Pat<'s>>, Box<Expr<'s>>),
    /// `a += b`
    OpAssign(At, AssignOp, Box<Pat<'s>>, Box<Expr<'s>>),
    /// `(a, b) => c`
    Arrow(At, Vec<Box<Pat<'s>>>, Box<Expr<'s>>),
    /// `(a, b) => { c; }`: its parameters, directives and statements
    ArrowBlock(At, Vec<Box<Pat<'s>>>, Vec<Text<'s>>, Vec<Box<Stmt<'s>>>),
    /// `a => b`
    BareArrow(At, Ident<'s>, Box<Expr<'s>>),
    /// `a => { b; }`
    BareArrowBlock(At, Ident<'s>, Vec<Text<'s>>, Vec<Box<Stmt<'s>>>),
    /// `a ? b : c`
    Cond(At, Box<Expr<'s>>, Box<Expr<'s>>, Box<Expr<'s>>),
    Binary(At, BinaryOp, Box<Expr<'s>>, Box<Expr<'s>>),
    Unary(At, UnaryOp, Box<Expr<'s>>),
    /// `++a`, `a++`
    Update(At, UpdateOp, UpdateSide, Box<Pat<'s>>),
    /// `...a`
    Spread(At, Box<Expr<'s>>),
    /// Nothing, between two commas of an array.
    Hole,
}

/// What goes on with an expression to the right, and what is made alike.
#[cycle(tree)]
pub enum Access<'s> {
    /// `a(b, c)`
    Call(At, Box<Expr<'s>>, Vec<Box<Expr<'s>>>),
    /// `a.b`
    Member(At, Box<Expr<'s>>, Text<'s>),
    /// `a[b]`
    Index(At, Box<Expr<'s>>, Box<Expr<'s>>),
    /// A tag and its template, with the template's own span.
    Tagged(At, Box<Expr<'s>>, At, Vec<Text<'s>>, Vec<Box<Expr<'s>>>),
    /// `new a(b)`
    New(At, Box<Expr<'s>>, Vec<Box<Expr<'s>>>),
    /// `new a`
    NewWithoutArguments(At, Box<Expr<'s>>),
    /// `super(a)`
    SuperCall(At, Vec<Box<Expr<'s>>>),
    /// `super.a`
    SuperMember(At, Text<'s>),
    /// `super[a]`
    SuperIndex(At, Box<Expr<'s>>),
    /// `import(a)`
    ImportCall(At, Box<Expr<'s>>),
    /// `a?.b.c`
    Chain(At, Box<Expr<'s>>, Vec<Box<Link<'s>>>),
}

/// A link of an optional chain.
#[cycle(tree)]
pub enum Link<'s> {
    Member(At, LinkForm, Text<'s>),
    Index(At, LinkForm, Box<Expr<'s>>),
    Call(At, LinkForm, Vec<Box<Expr<'s>>>),
}

/// A member of an object literal or of a class.
#[cycle(tree)]
pub enum Prop<'s> {
    /// `a: b`
    Pair(At, Key<'s>, Box<Expr<'s>>),
    /// `a`
    Shorthand(At, Ident<'s>),
    /// `...a`
    Spread(At, Box<Expr<'s>>),
    /// `a(b) {}`
    Method(At, Placement, Key<'s>, Vec<Box<Pat<'s>>>, Vec<Text<'s>>, Vec<Box<Stmt<'s>>>),
    /// `get a() {}`
    Getter(At, Placement, Key<'s>, Vec<Text<'s>>, Vec<Box<Stmt<'s>>>),
    /// `set a(b) {}`
    Setter(At, Placement, Key<'s>, Box<Pat<'s>>, Vec<Text<'s>>, Vec<Box<Stmt<'s>>>),
    /// `a = b;`
    Field(At, Placement, Key<'s>, Option<Box<Expr<'s>>>),
}

/// The key of a member.
#[cycle(tree)]
pub enum Key<'s> {
    Name(Text<'s>),
    Literal(LiteralKind, Text<'s>),
    /// `[a]`
    Computed(At, Box<Expr<'s>>),
}

/// A pattern, which binds names or assigns to targets, and what it is made of.
#[cycle(tree)]
pub enum Pat<'s> {
    Ident(At, Ident<'s>),
    /// `[a, , ...b]`
    Array(At, Vec<Box<Pat<'s>>>),
    /// `{ a, b: c }`
    Object(At, Vec<Box<Pat<'s>>>),
    /// A target that is no name: `a.b`. As what a `for` begins with, any expression.
    Target(Box<Expr<'s>>),
    /// A target in parentheses: `(a)`
    Paren(At, Box<Pat<'s>>),
    /// A declarator: a pattern with its value, where it has one: `a = 1`.
    Binding(At, Box<Pat<'s>>, Option<Box<Expr<'s>>>),
    /// A pattern with a default: `a = 1`.
    WithInit(At, Box<Pat<'s>>, Box<Expr<'s>>),
    /// `...a`
    Rest(At, Box<Pat<'s>>),
    /// Nothing, between two commas of an array.
    Hole,
    /// A property of an object: `a: b`
    Pair(At, Key<'s>, Box<Pat<'s>>),
    /// `a`, or `a = 1`
    Shorthand(At, Ident<'s>, Option<Box<Expr<'s>>>),
    /// `...a` in an object
    RestProperty(At, Ident<'s>),
    /// `var a = 1, b` as what a `for` begins with
    Declaration(At, DeclareWord, Vec<Box<Pat<'s>>>),
    /// `var a` as the head of a `for`-`in` or `for`-`of`
    Head(At, DeclareWord, Box<Pat<'s>>),
}

/// A statement (ECMA-262 section 14).
#[cycle(tree)]
pub enum Stmt<'s> {
    /// `{ a; }`
    Block(At, Vec<Box<Stmt<'s>>>),
    /// `const a = 1, b = 2;`, each declarator a `Binding`
    Var(At, DeclareWord, Vec<Box<Pat<'s>>>),
    /// `;`
    Empty(At),
    /// `a;`
    Expr(At, Box<Expr<'s>>),
    Control(Control<'s>),
    /// `continue a;`
    Continue(At, Option<Ident<'s>>),
    /// `break a;`
    Break(At, Option<Ident<'s>>),
    /// `return a;`
    Return(At, Option<Box<Expr<'s>>>),
    /// `throw a;`
    Throw(At, Box<Expr<'s>>),
    /// `debugger;`
    Debugger(At),
    /// `function f(a) {}`: its name, parameters, directives and statements
    Function(At, Ident<'s>, Vec<Box<Pat<'s>>>, Vec<Text<'s>>, Vec<Box<Stmt<'s>>>),
    /// `class A extends B {}`
    Class(At, Ident<'s>, Option<Box<Expr<'s>>>, Vec<Box<Prop<'s>>>),
}

/// Statements that hold others, and their clauses.
#[cycle(tree)]
pub enum Control<'s> {
    /// `if (a) b; else c;`
    If(At, Box<Expr<'s>>, Box<Stmt<'s>>, Option<Box<Stmt<'s>>>),
    /// `do a; while (b);`
    Do(At, Box<Stmt<'s>>, Box<Expr<'s>>),
    /// `while (a) b;`
    While(At, Box<Expr<'s>>, Box<Stmt<'s>>),
    /// `for (a; b; c) d;`
    For(At, Option<Box<Pat<'s>>>, Option<Box<Expr<'s>>>, Option<Box<Expr<'s>>>, Box<Stmt<'s>>),
    /// `for (a in b) c;`
    ForIn(At, Box<Pat<'s>>, Box<Expr<'s>>, Box<Stmt<'s>>),
    /// `for (a of b) c;`
    ForOf(At, Box<Pat<'s>>, Box<Expr<'s>>, Box<Stmt<'s>>),
    /// `a: b;`
    Label(At, Ident<'s>, Box<Stmt<'s>>),
    /// `switch (a) { case b: c; }`
    Switch(At, Box<Expr<'s>>, Vec<Box<Control<'s>>>),
    /// `case a: b;`, or `default: b;` where there is no test
    Case(At, Option<Box<Expr<'s>>>, Vec<Box<Stmt<'s>>>),
    /// `try {} catch (a) {} finally {}`
    Try(At, Box<Stmt<'s>>, Option<Box<Control<'s>>>, Option<Box<Stmt<'s>>>),
    /// `catch (a) {}`
    Catch(At, Option<Box<Pat<'s>>>, Box<Stmt<'s>>),
}

/// JSX (JSX specification): elements, and what may stand in them.
#[cycle(tree)]
pub enum Jsx<'s> {
    /// `<a b="c"/>`
    Element(At, Tag<'s>, Vec<Box<Jsx<'s>>>),
    /// `<a>b</a>`, with both tags
    ElementWithChildren(At, Tag<'s>, Vec<Box<Jsx<'s>>>, Vec<Box<Jsx<'s>>>, Box<Tag<'s>>),
    /// `<>a</>`
    Fragment(At, Vec<Box<Jsx<'s>>>),
    Text(At, Text<'s>),
    /// The string of an attribute.
    Str(At, Text<'s>),
    /// `{a}`, or `{}`
    Container(At, Option<Box<Expr<'s>>>),
    /// `{...a}`
    Spread(At, Box<Expr<'s>>),
    /// `a="b"`
    Attribute(At, AttrName<'s>, Option<Box<Jsx<'s>>>),
}

/// What an element is made of.
#[derive(Drop)]
pub enum Tag<'s> {
    Name(Text<'s>),
    /// `a:b`
    Namespaced(At, Text<'s>, Text<'s>),
    /// `a.b.c`
    Member(At, Text<'s>, Vec<Text<'s>>),
}

#[derive(Drop)]
pub enum AttrName<'s> {
    Name(Text<'s>),
    /// `a:b`
    Namespaced(At, Text<'s>, Text<'s>),
}

impl Drop for Expr<'_> {
    #[cycle(drop)]
    fn drop(self) {
        match self {
            Expr::Ident(_, a) => drop(a),
            Expr::Literal(_, _, a) => drop(a),
            Expr::Word(_, _) => {}
            Expr::Operation(a) => drop(a),
            Expr::Access(a) => drop(a),
            Expr::Array(_, a) => drop(a),
            Expr::Object(_, a) => drop(a),
            Expr::Template(_, a, b) => {
                drop(a);
                drop(b);
            }
            Expr::Function(_, a, b, c, d) => {
                drop(a);
                drop(b);
                drop(c);
                drop(d);
            }
            Expr::Class(_, a, b, c) => {
                drop(a);
                drop(b);
                drop(c);
            }
            Expr::Jsx(a) => drop(a),
            Expr::Paren(_, a) => drop(a),
        }
    }
}

impl Drop for Operation<'_> {
    #[cycle(drop)]
    fn drop(self) {
        match self {
            Operation::Seq(_, a) => drop(a),
            Operation::Assign(_, a, b) => {
                drop(a);
                drop(b);
            }
            Operation::OpAssign(_, _, a, b) => {
                drop(a);
                drop(b);
            }
            Operation::Arrow(_, a, b) => {
                drop(a);
                drop(b);
            }
            Operation::ArrowBlock(_, a, b, c) => {
                drop(a);
                drop(b);
                drop(c);
            }
            Operation::BareArrow(_, a, b) => {
                drop(a);
                drop(b);
            }
            Operation::BareArrowBlock(_, a, b, c) => {
                drop(a);
                drop(b);
                drop(c);
            }
            Operation::Cond(_, a, b, c) => {
                drop(a);
                drop(b);
                drop(c);
            }
            Operation::Binary(_, _, a, b) => {
                drop(a);
                drop(b);
            }
            Operation::Unary(_, _, a) => drop(a),
            Operation::Update(_, _, _, a) => drop(a),
            Operation::Spread(_, a) => drop(a),
            Operation::Hole => {}
        }
    }
}

impl Drop for Access<'_> {
    #[cycle(drop)]
    fn drop(self) {
        match self {
            Access::Call(_, a, b) => {
                drop(a);
                drop(b);
            }
            Access::Member(_, a, b) => {
                drop(a);
                drop(b);
            }
            Access::Index(_, a, b) => {
                drop(a);
                drop(b);
            }
            Access::Tagged(_, a, _, b, c) => {
                drop(a);
                drop(b);
                drop(c);
            }
            Access::New(_, a, b) => {
                drop(a);
                drop(b);
            }
            Access::NewWithoutArguments(_, a) => drop(a),
            Access::SuperCall(_, a) => drop(a),
            Access::SuperMember(_, a) => drop(a),
            Access::SuperIndex(_, a) => drop(a),
            Access::ImportCall(_, a) => drop(a),
            Access::Chain(_, a, b) => {
                drop(a);
                drop(b);
            }
        }
    }
}

impl Drop for Link<'_> {
    #[cycle(drop)]
    fn drop(self) {
        match self {
            Link::Member(_, _, a) => drop(a),
            Link::Index(_, _, a) => drop(a),
            Link::Call(_, _, a) => drop(a),
        }
    }
}

impl Drop for Prop<'_> {
    #[cycle(drop)]
    fn drop(self) {
        match self {
            Prop::Pair(_, a, b) => {
                drop(a);
                drop(b);
            }
            Prop::Shorthand(_, a) => drop(a),
            Prop::Spread(_, a) => drop(a),
            Prop::Method(_, _, a, b, c, d) => {
                drop(a);
                drop(b);
                drop(c);
                drop(d);
            }
            Prop::Getter(_, _, a, b, c) => {
                drop(a);
                drop(b);
                drop(c);
            }
            Prop::Setter(_, _, a, b, c, d) => {
                drop(a);
                drop(b);
                drop(c);
                drop(d);
            }
            Prop::Field(_, _, a, b) => {
                drop(a);
                drop(b);
            }
        }
    }
}

impl Drop for Key<'_> {
    #[cycle(drop)]
    fn drop(self) {
        match self {
            Key::Name(a) => drop(a),
            Key::Literal(_, a) => drop(a),
            Key::Computed(_, a) => drop(a),
        }
    }
}

impl Drop for Pat<'_> {
    #[cycle(drop)]
    fn drop(self) {
        match self {
            Pat::Ident(_, a) => drop(a),
            Pat::Array(_, a) => drop(a),
            Pat::Object(_, a) => drop(a),
            Pat::Target(a) => drop(a),
            Pat::Paren(_, a) => drop(a),
            Pat::Binding(_, a, b) => {
                drop(a);
                drop(b);
            }
            Pat::WithInit(_, a, b) => {
                drop(a);
                drop(b);
            }
            Pat::Rest(_, a) => drop(a),
            Pat::Hole => {}
            Pat::Pair(_, a, b) => {
                drop(a);
                drop(b);
            }
            Pat::Shorthand(_, a, b) => {
                drop(a);
                drop(b);
            }
            Pat::RestProperty(_, a) => drop(a),
            Pat::Declaration(_, _, a) => drop(a),
            Pat::Head(_, _, a) => drop(a),
        }
    }
}

impl Drop for Stmt<'_> {
    #[cycle(drop)]
    fn drop(self) {
        match self {
            Stmt::Block(_, a) => drop(a),
            Stmt::Var(_, _, a) => drop(a),
            Stmt::Empty(_) => {}
            Stmt::Expr(_, a) => drop(a),
            Stmt::Control(a) => drop(a),
            Stmt::Continue(_, a) => drop(a),
            Stmt::Break(_, a) => drop(a),
            Stmt::Return(_, a) => drop(a),
            Stmt::Throw(_, a) => drop(a),
            Stmt::Debugger(_) => {}
            Stmt::Function(_, a, b, c, d) => {
                drop(a);
                drop(b);
                drop(c);
                drop(d);
            }
            Stmt::Class(_, a, b, c) => {
                drop(a);
                drop(b);
                drop(c);
            }
        }
    }
}

impl Drop for Control<'_> {
    #[cycle(drop)]
    fn drop(self) {
        match self {
            Control::If(_, a, b, c) => {
                drop(a);
                drop(b);
                drop(c);
            }
            Control::Do(_, a, b) => {
                drop(a);
                drop(b);
            }
            Control::While(_, a, b) => {
                drop(a);
                drop(b);
            }
            Control::For(_, a, b, c, d) => {
                drop(a);
                drop(b);
                drop(c);
                drop(d);
            }
            Control::ForIn(_, a, b, c) => {
                drop(a);
                drop(b);
                drop(c);
            }
            Control::ForOf(_, a, b, c) => {
                drop(a);
                drop(b);
                drop(c);
            }
            Control::Label(_, a, b) => {
                drop(a);
                drop(b);
            }
            Control::Switch(_, a, b) => {
                drop(a);
                drop(b);
            }
            Control::Case(_, a, b) => {
                drop(a);
                drop(b);
            }
            Control::Try(_, a, b, c) => {
                drop(a);
                drop(b);
                drop(c);
            }
            Control::Catch(_, a, b) => {
                drop(a);
                drop(b);
            }
        }
    }
}

impl Drop for Jsx<'_> {
    #[cycle(drop)]
    fn drop(self) {
        match self {
            Jsx::Element(_, a, b) => {
                drop(a);
                drop(b);
            }
            Jsx::ElementWithChildren(_, a, b, c, d) => {
                drop(a);
                drop(b);
                drop(c);
                drop(d);
            }
            Jsx::Fragment(_, a) => drop(a),
            Jsx::Text(_, a) => drop(a),
            Jsx::Str(_, a) => drop(a),
            Jsx::Container(_, a) => drop(a),
            Jsx::Spread(_, a) => drop(a),
            Jsx::Attribute(_, a, b) => {
                drop(a);
                drop(b);
            }
        }
    }
}
