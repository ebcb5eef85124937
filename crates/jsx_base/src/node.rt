//! Nodes of a tree, as tools see them.

use crate::place::Spanned;
use std::fmt::Debug;

/// A node of a tree: it can be shown and compared, has a span, and its type has a name.
pub trait AstNode: Debug + PartialEq + Spanned {
    /// The type's name, as `Stmt`.
    const TYPE: &'static str;
}
