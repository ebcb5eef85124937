//! What a program's text says of names, in the order of the text.

use jsx_base::BytePos;

/// Whose scope begins.
#[derive(Clone, Copy, Debug, PartialEq, Eq)]
pub enum Frame {
    Module,
    Script,
    Function,
    /// A block, the cases of a `switch`, or a `for`.
    Block,
    Catch,
    /// That of the own name of a function or class expression.
    OwnName,
}

/// As what a name is declared.
#[derive(Clone, Copy, Debug, PartialEq, Eq)]
pub enum Sort {
    Var,
    Parameter,
    Function,
    /// By `let`, `const`, a class, an import, a catch clause, or as an own name.
    Lexical,
}

/// What stands at a place.
#[derive(Clone, Copy, Debug)]
pub enum Event<'t> {
    Opens(Frame),
    /// The parameters of a function, or the pattern of a catch clause, are over.
    Enters,
    Closes,
    Declares {
        in_head: bool,
        sort: Sort,
        name: &'t str,
        at: BytePos,
    },
    Refers(&'t str, BytePos),
    Exports(&'t str, BytePos),
    /// A name that the module exports and must declare.
    Wants(&'t str, BytePos),
    /// A direct call of `eval`, at its name.
    Evals(BytePos),
}

/// An early error on names, and where it is.
#[derive(Clone, Copy, Debug, PartialEq, Eq)]
pub enum EarlyError {
    Scope(BytePos),
    DirectEval(BytePos),
}
