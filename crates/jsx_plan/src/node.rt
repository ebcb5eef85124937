//! What is left to print.

use jsx_base::BytePos;
use jsx_pen::Step;
use jsx_tree::{Control, Expr, Item, Link, Pat, Prop, Specifier, Stmt, Text};

/// A token, a blank, a tree, or the trees of one place.
#[derive(Clone, Copy)]
pub enum Node<'a, 's> {
    /// A token that the printer writes itself, with the blanks behind it.
    Sign(&'static str),
    /// The same as a sign where no blank is due before it.
    Raw(&'static str),
    Step(Step),
    /// Where a call begins, and its place in the source.
    Place(BytePos),
    /// A token that stands in the tree.
    Word(&'a Text<'s>),
    /// A piece of a template behind the first one.
    Piece(&'a Text<'s>),
    Expr(&'a Box<Expr<'s>>),
    Stmt(&'a Box<Stmt<'s>>),
    Control(&'a Box<Control<'s>>),
    Pat(&'a Box<Pat<'s>>, Role),
    Member(&'a Box<Prop<'s>>, Owner),
    Link(&'a Box<Link<'s>>),
    /// Trees with commas between them, and with one before the first too.
    Exprs(&'a [Box<Expr<'s>>]),
    MoreExprs(&'a [Box<Expr<'s>>]),
    Pats(&'a [Box<Pat<'s>>], Role),
    MorePats(&'a [Box<Pat<'s>>], Role),
    Props(&'a [Box<Prop<'s>>]),
    MoreProps(&'a [Box<Prop<'s>>]),
    /// Trees on lines.
    Members(&'a [Box<Prop<'s>>]),
    Stmts(&'a [Box<Stmt<'s>>]),
    Cases(&'a [Box<Control<'s>>]),
    Directives(&'a [Text<'s>]),
    /// What stands at the top, each with the end of its line.
    TopStmts(&'a [Box<Stmt<'s>>]),
    TopDirectives(&'a [Text<'s>]),
    /// The items from this one on.
    Items(&'a Vec<Item<'s>>, usize),
    Links(&'a [Box<Link<'s>>]),
    /// The specifiers from this one on, with commas between them.
    Specifiers(&'a Vec<Specifier<'s>>, Side, usize),
    MoreSpecifiers(&'a Vec<Specifier<'s>>, Side, usize),
    /// The pieces of a template behind the first one, and the expressions before them.
    Spans(&'a [Text<'s>], &'a [Box<Expr<'s>>]),
}

/// Whether a pattern binds names or assigns to targets.
#[derive(Clone, Copy)]
pub enum Role {
    Binds,
    Assigns,
}

/// Whose member it is.
#[derive(Clone, Copy)]
pub enum Owner {
    Object,
    Class,
}

/// Where a specifier stands.
#[derive(Clone, Copy)]
pub enum Side {
    Imported,
    Exported,
    From,
}
