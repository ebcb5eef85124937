//! What a report adds to its message, as a note.

ghost use Rattle.std.specs.Prelude.{◌≡◌, ◌↔◌, IsTrue, IfOk, string_bytes, map};
ghost use Rattle.std.specs.List.{flat_map};
ghost use Rattle.jsx_diag.specs.Data.{piece_of, child_of};

use crate::message::{clone_messages, joined};
use crate::{Level, Message};
use jsx_base::MultiSpan;
use std::alloc::{AllocError, Global};

/// A note, a warning or a help that belongs to a report.
#[derive(Debug, PartialEq, Eq, Hash, Drop)]
pub struct SubDiagnostic {
    pub level: Level,
    pub message: Vec<Message>,
    pub span: MultiSpan,
    /// What is shown in place of `span`.
    pub render_span: Option<MultiSpan>,
}

impl SubDiagnostic {
    /// The text of its message.
    ///
    /// # Errors
    ///
    /// `AllocError` for want of memory.
    pub fn message(&self, alloc: Global) -> Result<String, AllocError>
        ensures { IfOk result (λ text. string_bytes text ≡ flat_map (λ piece. piece.text) (child_of self.now).message) }
    {
        joined(alloc, &self.message)
    }

    /// The pieces of its message.
    pub fn styled_message(&self) -> &Vec<Message>
        ensures { result.now ≡ self.now.message }
    {
        &self.message
    }

    /// Whether the two are equal in every field.
    pub fn is_same(&self, other: &SubDiagnostic) -> bool
        ensures { IsTrue result ↔ (child_of self.now ≡ child_of other.now) }
    {
        *self == *other
    }

    /// An equal one.
    ///
    /// # Errors
    ///
    /// `AllocError` for want of memory.
    pub fn try_clone(&self, alloc: Global) -> Result<SubDiagnostic, AllocError>
        ensures { IfOk result (λ copy. child_of copy ≡ child_of self.now) }
    {
        let render_span = match &self.render_span {
            Some(span) => Some(span.try_clone(alloc)?),
            None => None,
        };
        Ok(SubDiagnostic {
            level: self.level,
            message: clone_messages(alloc, &self.message)?,
            span: self.span.try_clone(alloc)?,
            render_span,
        })
    }
}

// Equal notes.
pub(crate) fn clone_children(
    alloc: Global,
    children: &[SubDiagnostic],
) -> Result<Vec<SubDiagnostic>, AllocError>
    ensures { IfOk result (λ copies. map child_of copies.items ≡ map child_of children.now) }
{
    let mut copies = Vec::with_capacity(alloc, children.len())?;
    for child in children {
        copies.push(child.try_clone(alloc)?)?;
    }
    Ok(copies)
}
