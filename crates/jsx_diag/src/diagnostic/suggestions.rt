//! The calls that add a suggestion.

ghost use Rattle.std.specs.Prelude.{◌≡◌, [], ◌∷◌, true, false, IfOk, OnOk, OnErr, string_bytes, map};
ghost use Rattle.jsx_diag.specs.Data.{edits_of, report_of, suggestion_of};
ghost use Rattle.jsx_diag.specs.Adds.{edit, edit_from, edits_at, with_suggestion, with_suggestion_of};

use crate::{Applicability, CodeSuggestion, Diagnostic, Substitution};
use jsx_base::Span;
use std::alloc::{AllocError, Global};

impl Diagnostic {
    /// Suggests a text in place of a span.
    ///
    /// # Errors
    ///
    /// `AllocError` for want of memory. The call under it, `push_suggestion`, then changes nothing.
    pub fn span_suggestion(
        &mut self,
        sp: Span,
        msg: &str,
        suggestion: String,
    ) -> Result<&mut Self, AllocError>
        ensures same_reference { IfOk result (λ it. it.ghost_name ≡ self.entry.ghost_name) }
        ensures added { IfOk result (λ it. report_of it.now ≡ with_suggestion (report_of self.old) ((edit sp (string_bytes suggestion) ∷ []) ∷ []) msg.now true Applicability.Unspecified) }
    {
        self.push_one(sp, msg, suggestion, true, Applicability::Unspecified)?;
        Ok(self)
    }

    /// The same, where the message alone is shown inline.
    ///
    /// # Errors
    ///
    /// `AllocError` for want of memory. The call under it, `push_suggestion`, then changes nothing.
    pub fn span_suggestion_short(
        &mut self,
        sp: Span,
        msg: &str,
        suggestion: String,
    ) -> Result<&mut Self, AllocError>
        ensures same_reference { IfOk result (λ it. it.ghost_name ≡ self.entry.ghost_name) }
        ensures added { IfOk result (λ it. report_of it.now ≡ with_suggestion (report_of self.old) ((edit sp (string_bytes suggestion) ∷ []) ∷ []) msg.now false Applicability.Unspecified) }
    {
        self.push_one(sp, msg, suggestion, false, Applicability::Unspecified)?;
        Ok(self)
    }

    /// Suggests several texts, any one of them in place of a span.
    ///
    /// # Errors
    ///
    /// `AllocError` for want of memory. The call under it, `push_suggestion`, then changes nothing.
    pub fn span_suggestions(
        &mut self,
        sp: Span,
        msg: &str,
        suggestions: Vec<String>,
    ) -> Result<&mut Self, AllocError>
        ensures same_reference { IfOk result (λ it. it.ghost_name ≡ self.entry.ghost_name) }
        ensures added { IfOk result (λ it. report_of it.now ≡ with_suggestion (report_of self.old) (map (edits_at sp) suggestions.items) msg.now true Applicability.Unspecified) }
    {
        self.span_suggestions_with_applicability(sp, msg, suggestions, Applicability::Unspecified)
    }

    /// Suggests texts in place of spans, all of them together.
    ///
    /// # Errors
    ///
    /// `AllocError` for want of memory. The call under it, `push_suggestion`, then changes nothing.
    pub fn multipart_suggestion(
        &mut self,
        msg: &str,
        suggestion: Vec<(Span, String)>,
    ) -> Result<&mut Self, AllocError>
        ensures same_reference { IfOk result (λ it. it.ghost_name ≡ self.entry.ghost_name) }
        ensures added { IfOk result (λ it. report_of it.now ≡ with_suggestion (report_of self.old) (map edit_from suggestion.items ∷ []) msg.now true Applicability.Unspecified) }
    {
        self.multipart_suggestion_with_applicability(msg, suggestion, Applicability::Unspecified)
    }

    /// Suggests a text in place of a span.
    ///
    /// # Errors
    ///
    /// `AllocError` for want of memory. The call under it, `push_suggestion`, then changes nothing.
    pub fn span_suggestion_with_applicability(
        &mut self,
        sp: Span,
        msg: &str,
        suggestion: String,
        applicability: Applicability,
    ) -> Result<&mut Self, AllocError>
        ensures same_reference { IfOk result (λ it. it.ghost_name ≡ self.entry.ghost_name) }
        ensures added { IfOk result (λ it. report_of it.now ≡ with_suggestion (report_of self.old) ((edit sp (string_bytes suggestion) ∷ []) ∷ []) msg.now true applicability) }
    {
        self.push_one(sp, msg, suggestion, true, applicability)?;
        Ok(self)
    }

    /// The same, where the message alone is shown inline.
    ///
    /// # Errors
    ///
    /// `AllocError` for want of memory. The call under it, `push_suggestion`, then changes nothing.
    pub fn span_suggestion_short_with_applicability(
        &mut self,
        sp: Span,
        msg: &str,
        suggestion: String,
        applicability: Applicability,
    ) -> Result<&mut Self, AllocError>
        ensures same_reference { IfOk result (λ it. it.ghost_name ≡ self.entry.ghost_name) }
        ensures added { IfOk result (λ it. report_of it.now ≡ with_suggestion (report_of self.old) ((edit sp (string_bytes suggestion) ∷ []) ∷ []) msg.now false applicability) }
    {
        self.push_one(sp, msg, suggestion, false, applicability)?;
        Ok(self)
    }

    /// Suggests several texts, any one of them in place of a span.
    ///
    /// # Errors
    ///
    /// `AllocError` for want of memory. The call under it, `push_suggestion`, then changes nothing.
    pub fn span_suggestions_with_applicability(
        &mut self,
        sp: Span,
        msg: &str,
        suggestions: Vec<String>,
        applicability: Applicability,
    ) -> Result<&mut Self, AllocError>
        ensures same_reference { IfOk result (λ it. it.ghost_name ≡ self.entry.ghost_name) }
        ensures added { IfOk result (λ it. report_of it.now ≡ with_suggestion (report_of self.old) (map (edits_at sp) suggestions.items) msg.now true applicability) }
    {
        let substitutions = one_each(*self.children.allocator(), sp, &suggestions)?;
        self.push_ways(substitutions, msg, true, applicability)?;
        Ok(self)
    }

    /// Suggests texts in place of spans, all of them together.
    ///
    /// # Errors
    ///
    /// `AllocError` for want of memory. The call under it, `push_suggestion`, then changes nothing.
    pub fn multipart_suggestion_with_applicability(
        &mut self,
        msg: &str,
        suggestion: Vec<(Span, String)>,
        applicability: Applicability,
    ) -> Result<&mut Self, AllocError>
        ensures same_reference { IfOk result (λ it. it.ghost_name ≡ self.entry.ghost_name) }
        ensures added { IfOk result (λ it. report_of it.now ≡ with_suggestion (report_of self.old) (map edit_from suggestion.items ∷ []) msg.now true applicability) }
    {
        let substitutions = all_together(*self.children.allocator(), &suggestion)?;
        self.push_ways(substitutions, msg, true, applicability)?;
        Ok(self)
    }

    /// Adds a suggestion.
    ///
    /// # Errors
    ///
    /// `AllocError` for want of memory. Then nothing has changed.
    pub fn push_suggestion(&mut self, suggestion: CodeSuggestion) -> Result<(), AllocError>
        ensures added { OnOk result (report_of self.new ≡ with_suggestion_of (report_of self.old) (suggestion_of suggestion)) }
        ensures kept { OnErr result (report_of self.new ≡ report_of self.old) }
    {
        self.suggestions.push(suggestion)?;
        Ok(())
    }

    // A suggestion of these ways.
    fn push_ways(
        &mut self,
        substitutions: Vec<Substitution>,
        msg: &str,
        shown: bool,
        applicability: Applicability,
    ) -> Result<(), AllocError>
        ensures added { OnOk result (report_of self.new ≡ with_suggestion (report_of self.old) (map edits_of substitutions.items) msg.now shown applicability) }
        ensures kept { OnErr result (report_of self.new ≡ report_of self.old) }
    {
        let msg = String::from_str(*self.children.allocator(), msg)?;
        self.push_suggestion(CodeSuggestion {
            substitutions,
            msg,
            show_code_when_inline: shown,
            applicability,
        })
    }

    // A suggestion of one text in place of one span.
    fn push_one(
        &mut self,
        span: Span,
        msg: &str,
        text: String,
        shown: bool,
        applicability: Applicability,
    ) -> Result<(), AllocError>
        ensures added { OnOk result (report_of self.new ≡ with_suggestion (report_of self.old) ((edit span (string_bytes text) ∷ []) ∷ []) msg.now shown applicability) }
        ensures kept { OnErr result (report_of self.new ≡ report_of self.old) }
    {
        let alloc = *self.children.allocator();
        let mut substitutions = Vec::new(alloc);
        substitutions.push(Substitution::one(alloc, span, text)?)?;
        self.push_ways(substitutions, msg, shown, applicability)
    }
}

// One way for each text.
fn one_each(alloc: Global, span: Span, texts: &[String]) -> Result<Vec<Substitution>, AllocError>
    ensures { IfOk result (λ ways. map edits_of ways.items ≡ map (edits_at span) texts.now) }
{
    let mut ways = Vec::with_capacity(alloc, texts.len())?;
    for text in texts {
        let text = String::from_str(alloc, text.as_str())?;
        ways.push(Substitution::one(alloc, span, text)?)?;
    }
    Ok(ways)
}

// One way, of all texts.
fn all_together(alloc: Global, texts: &[(Span, String)]) -> Result<Vec<Substitution>, AllocError>
    ensures { IfOk result (λ ways. map edits_of ways.items ≡ map edit_from texts.now ∷ []) }
{
    let mut ways = Vec::new(alloc);
    ways.push(Substitution::all(alloc, texts)?)?;
    Ok(ways)
}
