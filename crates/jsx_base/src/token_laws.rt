//! What the definition of tokens means.

ghost use Rattle.jsx_base.specs.LiteralParts.{StringsAreParts, TemplatesAreParts, PiecesAreParts};

/// A string is a quote, characters and escapes, and the quote again.
pub fn strings_are_parts()
    ensures { StringsAreParts }
{}

/// A template, or a piece of one, is characters and escapes between backquotes, braces, or one of each.
pub fn templates_are_parts()
    ensures from_backquote { TemplatesAreParts }
    ensures from_brace { PiecesAreParts }
{}
