//! Texts and words of a tree.

use jsx_base::BytePos;

/// What a text is read as: a module or a script (ECMA-262 section 16).
#[derive(Clone, Copy, Debug, PartialEq, Eq)]
pub enum Goal {
    Module,
    Script,
}

/// A piece of the source and the place of its first byte, or a text that was made and the place that it comes from.
#[derive(Debug, Drop)]
pub enum Text<'s> {
    Read(&'s str, BytePos),
    Made(String, Option<BytePos>),
}

/// A name that is declared or referred to.
#[derive(Debug, Drop)]
pub struct Ident<'s> {
    pub text: Text<'s>,
}

/// The kinds of literal whose text is one token.
#[derive(Clone, Copy, Debug, PartialEq, Eq)]
pub enum LiteralKind {
    Num,
    BigInt,
    Str,
    RegExp,
}

/// An expression that is always spelled alike.
#[derive(Clone, Copy, Debug, PartialEq, Eq)]
pub enum Word {
    This,
    Null,
    True,
    False,
    /// `import.meta`
    ImportMeta,
    /// `new.target`
    NewTarget,
}

/// The word that a declaration of variables begins with.
#[derive(Clone, Copy, Debug, PartialEq, Eq)]
pub enum DeclareWord {
    Var,
    Let,
    Const,
}

/// How a link of an optional chain begins: `?.b` or `.b`.
#[derive(Clone, Copy, Debug, PartialEq, Eq)]
pub enum LinkForm {
    Optional,
    Plain,
}

/// Whether a member belongs to a class's instances or, with `static` before it, to the class.
#[derive(Clone, Copy, Debug, PartialEq, Eq)]
pub enum Placement {
    Instance,
    Static,
}
