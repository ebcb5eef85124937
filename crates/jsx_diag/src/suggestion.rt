//! Suggestions of what to write instead.

ghost use Rattle.std.specs.Prelude.{◌≡◌, [], ◌∷◌, IfOk, string_bytes, map};
ghost use Rattle.jsx_diag.specs.Data.{edit_of, edits_of, suggestion_of};
ghost use Rattle.jsx_diag.specs.Adds.{edit, edit_from};

use crate::Applicability;
use jsx_base::Span;
use std::alloc::{AllocError, Global};

/// What is suggested, and the ways to do it.
#[derive(Debug, PartialEq, Eq, Hash, Drop)]
pub struct CodeSuggestion {
    /// Each of these alone does what the message says.
    pub substitutions: Vec<Substitution>,
    pub msg: String,
    /// Whether the new text is shown beside the message where there is room.
    pub show_code_when_inline: bool,
    pub applicability: Applicability,
}

/// Texts to put in place of spans, all of them together.
#[derive(Debug, PartialEq, Eq, Hash, Drop)]
pub struct Substitution {
    pub parts: Vec<SubstitutionPart>,
}

/// A text to put in place of a span.
#[derive(Debug, PartialEq, Eq, Hash, Drop)]
pub struct SubstitutionPart {
    pub span: Span,
    pub snippet: String,
}

impl SubstitutionPart {
    /// An equal one.
    ///
    /// # Errors
    ///
    /// `AllocError` for want of memory.
    pub fn try_clone(&self, alloc: Global) -> Result<SubstitutionPart, AllocError>
        ensures { IfOk result (λ copy. edit_of copy ≡ edit_of self.now) }
    {
        Ok(SubstitutionPart {
            span: self.span,
            snippet: String::from_str(alloc, self.snippet.as_str())?,
        })
    }
}

impl Substitution {
    // One text in place of one span.
    pub(crate) fn one(
        alloc: Global,
        span: Span,
        snippet: String,
    ) -> Result<Substitution, AllocError>
        ensures { IfOk result (λ it. edits_of it ≡ edit span (string_bytes snippet) ∷ []) }
    {
        let mut parts = Vec::new(alloc);
        parts.push(SubstitutionPart { span, snippet })?;
        Ok(Substitution { parts })
    }

    // Each text in place of its span.
    pub(crate) fn all(alloc: Global, texts: &[(Span, String)]) -> Result<Substitution, AllocError>
        ensures { IfOk result (λ it. edits_of it ≡ map edit_from texts.now) }
    {
        let mut parts = Vec::with_capacity(alloc, texts.len())?;
        for text in texts {
            let snippet = String::from_str(alloc, text.1.as_str())?;
            parts.push(SubstitutionPart {
                span: text.0,
                snippet,
            })?;
        }
        Ok(Substitution { parts })
    }

    /// An equal one.
    ///
    /// # Errors
    ///
    /// `AllocError` for want of memory.
    pub fn try_clone(&self, alloc: Global) -> Result<Substitution, AllocError>
        ensures { IfOk result (λ copy. edits_of copy ≡ edits_of self.now) }
    {
        let mut parts = Vec::with_capacity(alloc, self.parts.len())?;
        for part in &self.parts {
            parts.push(part.try_clone(alloc)?)?;
        }
        Ok(Substitution { parts })
    }
}

impl CodeSuggestion {
    /// An equal one.
    ///
    /// # Errors
    ///
    /// `AllocError` for want of memory.
    pub fn try_clone(&self, alloc: Global) -> Result<CodeSuggestion, AllocError>
        ensures { IfOk result (λ copy. suggestion_of copy ≡ suggestion_of self.now) }
    {
        let mut substitutions = Vec::with_capacity(alloc, self.substitutions.len())?;
        for substitution in &self.substitutions {
            substitutions.push(substitution.try_clone(alloc)?)?;
        }
        Ok(CodeSuggestion {
            substitutions,
            msg: String::from_str(alloc, self.msg.as_str())?,
            show_code_when_inline: self.show_code_when_inline,
            applicability: self.applicability,
        })
    }
}

// Equal suggestions.
pub(crate) fn clone_suggestions(
    alloc: Global,
    suggestions: &[CodeSuggestion],
) -> Result<Vec<CodeSuggestion>, AllocError>
    ensures { IfOk result (λ copies. map suggestion_of copies.items ≡ map suggestion_of suggestions.now) }
{
    let mut copies = Vec::with_capacity(alloc, suggestions.len())?;
    for suggestion in suggestions {
        copies.push(suggestion.try_clone(alloc)?)?;
    }
    Ok(copies)
}
