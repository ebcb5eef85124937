//! Messages, whose pieces have a look of their own.

ghost use Rattle.std.specs.Prelude.{◌≡◌, ◌↔◌, IsTrue, [], ◌∷◌, ◌++◌, IfOk, OnOk, OnErr, string_bytes, map};
ghost use Rattle.std.specs.List.{flat_map};
ghost use Rattle.jsx_diag.specs.Data.{Plain, Marked, piece_of, part_of, parts_of, part_text};
ghost use Rattle.jsx_diag.specs.Adds.{plain_piece, part_piece};

use crate::Style;
use std::alloc::{AllocError, Global};

/// A piece of a message, and its look.
#[derive(Debug, PartialEq, Eq, Hash, Drop)]
pub struct Message(pub String, pub Style);

impl Message {
    // A piece without a look of its own.
    pub(crate) fn plain(alloc: Global, text: &str) -> Result<Message, AllocError>
        ensures { IfOk result (λ it. piece_of it ≡ plain_piece text.now) }
    {
        Ok(Message(String::from_str(alloc, text)?, Style::NoStyle))
    }

    /// An equal one.
    ///
    /// # Errors
    ///
    /// `AllocError` for want of memory.
    pub fn try_clone(&self, alloc: Global) -> Result<Message, AllocError>
        ensures { IfOk result (λ copy. piece_of copy ≡ piece_of self.now) }
    {
        Ok(Message(String::from_str(alloc, self.0.as_str())?, self.1))
    }
}

// One piece without a look of its own.
pub(crate) fn one_plain(alloc: Global, text: &str) -> Result<Vec<Message>, AllocError>
    ensures { IfOk result (λ pieces. map piece_of pieces.items ≡ plain_piece text.now ∷ []) }
{
    let mut pieces = Vec::new(alloc);
    pieces.push(Message::plain(alloc, text)?)?;
    Ok(pieces)
}

// Equal pieces.
pub(crate) fn clone_messages(
    alloc: Global,
    messages: &[Message],
) -> Result<Vec<Message>, AllocError>
    ensures { IfOk result (λ copies. map piece_of copies.items ≡ map piece_of messages.now) }
{
    let mut copies = Vec::with_capacity(alloc, messages.len())?;
    for message in messages {
        copies.push(message.try_clone(alloc)?)?;
    }
    Ok(copies)
}

// The texts of the pieces, one after another.
pub(crate) fn joined(alloc: Global, messages: &[Message]) -> Result<String, AllocError>
    ensures { IfOk result (λ text. string_bytes text ≡ flat_map (λ piece. piece.text) (map piece_of messages.now)) }
{
    let mut text = String::new(alloc);
    for message in messages {
        text.push_str(message.0.as_str())?;
    }
    Ok(text)
}

/// A text of which some parts stand out.
#[derive(PartialEq, Eq, Drop)]
pub struct DiagnosticStyledString(pub Vec<StringPart>);

/// A part of such a text.
#[derive(PartialEq, Eq, Drop)]
pub enum StringPart {
    Normal(String),
    Highlighted(String),
}

impl DiagnosticStyledString {
    /// An empty text. It takes no memory.
    pub fn new(alloc: Global) -> DiagnosticStyledString
        ensures { parts_of result ≡ [] }
    {
        DiagnosticStyledString(Vec::new(alloc))
    }

    /// Adds a plain part at the end.
    ///
    /// # Errors
    ///
    /// `AllocError` for want of memory. Then nothing has changed.
    pub fn push_normal(&mut self, t: String) -> Result<(), AllocError>
        ensures added { OnOk result (parts_of self.new ≡ parts_of self.old ++ Plain (string_bytes t) ∷ []) }
        ensures kept { OnErr result (parts_of self.new ≡ parts_of self.old) }
    {
        self.0.push(StringPart::Normal(t))?;
        Ok(())
    }

    /// Adds a part that stands out at the end.
    ///
    /// # Errors
    ///
    /// `AllocError` for want of memory. Then nothing has changed.
    pub fn push_highlighted(&mut self, t: String) -> Result<(), AllocError>
        ensures added { OnOk result (parts_of self.new ≡ parts_of self.old ++ Marked (string_bytes t) ∷ []) }
        ensures kept { OnErr result (parts_of self.new ≡ parts_of self.old) }
    {
        self.0.push(StringPart::Highlighted(t))?;
        Ok(())
    }

    /// A text of one plain part.
    ///
    /// # Errors
    ///
    /// `AllocError` for want of memory.
    pub fn normal(alloc: Global, t: String) -> Result<DiagnosticStyledString, AllocError>
        ensures { IfOk result (λ it. parts_of it ≡ Plain (string_bytes t) ∷ []) }
    {
        let mut styled = DiagnosticStyledString::new(alloc);
        styled.push_normal(t)?;
        Ok(styled)
    }

    /// A text of one part that stands out.
    ///
    /// # Errors
    ///
    /// `AllocError` for want of memory.
    pub fn highlighted(alloc: Global, t: String) -> Result<DiagnosticStyledString, AllocError>
        ensures { IfOk result (λ it. parts_of it ≡ Marked (string_bytes t) ∷ []) }
    {
        let mut styled = DiagnosticStyledString::new(alloc);
        styled.push_highlighted(t)?;
        Ok(styled)
    }

    /// Whether the two have the same parts.
    pub fn is_same(&self, other: &DiagnosticStyledString) -> bool
        ensures { IsTrue result ↔ (parts_of self.now ≡ parts_of other.now) }
    {
        *self == *other
    }

    /// The texts of the parts, one after another.
    ///
    /// # Errors
    ///
    /// `AllocError` for want of memory.
    pub fn content(&self, alloc: Global) -> Result<String, AllocError>
        ensures { IfOk result (λ text. string_bytes text ≡ flat_map part_text (parts_of self.now)) }
    {
        let mut text = String::new(alloc);
        for part in &self.0 {
            text.push_str(part.content())?;
        }
        Ok(text)
    }
}

impl StringPart {
    /// Its text.
    pub fn content(&self) -> &str
        ensures { result.now ≡ part_text (part_of self.now) }
    {
        match self {
            StringPart::Normal(text) | StringPart::Highlighted(text) => text.as_str(),
        }
    }

    // The piece of a message that it becomes.
    pub(crate) fn piece(&self, alloc: Global) -> Result<Message, AllocError>
        ensures { IfOk result (λ it. piece_of it ≡ part_piece (part_of self.now)) }
    {
        let style = match self {
            StringPart::Normal(_) => Style::NoStyle,
            StringPart::Highlighted(_) => Style::Highlight,
        };
        Ok(Message(String::from_str(alloc, self.content())?, style))
    }
}
