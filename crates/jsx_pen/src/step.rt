//! What stands between tokens.

/// What changes the state of the pen.
#[derive(Clone, Copy)]
pub enum Step {
    /// A blank inside of braces.
    Pad,
    /// The begin of a line.
    Line,
    Indent,
    /// The end of the lines of a pair of braces.
    Outdent,
    Unindent,
    /// A `+` or `-` before an operand.
    Plus,
    Minus,
}
