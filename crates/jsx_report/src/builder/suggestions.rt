//! The calls that add a suggestion to a report while it is made.

use super::DiagnosticBuilder;
use crate::Emitter;
use jsx_base::Span;
use jsx_diag::Applicability;
use std::alloc::AllocError;

impl<E: Emitter> DiagnosticBuilder<'_, E> {
    ghost use Rattle.std.specs.Prelude.{◌≡◌, [], ◌∷◌, true, false, map, IfOk, string_bytes};
    ghost use Rattle.jsx_diag.specs.Data.{report_of};
    ghost use Rattle.jsx_diag.specs.Adds.{edit_from, edits_at, with_suggestion};
    ghost use Rattle.jsx_report.specs.Builder.{diagnostic_of, if_allowed, suggests};

    /// Suggests a text in place of a span.
    ///
    /// # Errors
    ///
    /// `AllocError` for want of memory.
    pub fn span_suggestion(
        &mut self,
        sp: Span,
        msg: &str,
        suggestion: String,
    ) -> Result<&mut Self, AllocError>
        ensures same_reference { IfOk result (λ it. it.ghost_name ≡ self.entry.ghost_name) }
        ensures same_handler { IfOk result (λ it. it.now.handler.ghost_name ≡ self.old.handler.ghost_name) }
        ensures handler { IfOk result (λ it. it.now.handler.now ≡ self.old.handler.now) }
        ensures added { IfOk result (λ it. report_of (diagnostic_of it.now) ≡ with_suggestion (report_of (diagnostic_of self.old)) (edits_at sp suggestion ∷ []) msg.now true Applicability.Unspecified) }
        ensures suggests { IfOk result (λ it. suggests it.now ≡ suggests self.old) }
    {
        match self.diagnostic.span_suggestion(sp, msg, suggestion) {
            Ok(_) => Ok(self),
            Err(_) => Err(AllocError),
        }
    }

    /// The same, where the message alone is shown inline.
    ///
    /// # Errors
    ///
    /// `AllocError` for want of memory.
    pub fn span_suggestion_short(
        &mut self,
        sp: Span,
        msg: &str,
        suggestion: String,
    ) -> Result<&mut Self, AllocError>
        ensures same_reference { IfOk result (λ it. it.ghost_name ≡ self.entry.ghost_name) }
        ensures same_handler { IfOk result (λ it. it.now.handler.ghost_name ≡ self.old.handler.ghost_name) }
        ensures handler { IfOk result (λ it. it.now.handler.now ≡ self.old.handler.now) }
        ensures added { IfOk result (λ it. report_of (diagnostic_of it.now) ≡ with_suggestion (report_of (diagnostic_of self.old)) (edits_at sp suggestion ∷ []) msg.now false Applicability.Unspecified) }
        ensures suggests { IfOk result (λ it. suggests it.now ≡ suggests self.old) }
    {
        match self.diagnostic.span_suggestion_short(sp, msg, suggestion) {
            Ok(_) => Ok(self),
            Err(_) => Err(AllocError),
        }
    }

    /// Suggests several texts, any one of them in place of a span.
    ///
    /// # Errors
    ///
    /// `AllocError` for want of memory.
    pub fn span_suggestions(
        &mut self,
        sp: Span,
        msg: &str,
        suggestions: Vec<String>,
    ) -> Result<&mut Self, AllocError>
        ensures same_reference { IfOk result (λ it. it.ghost_name ≡ self.entry.ghost_name) }
        ensures same_handler { IfOk result (λ it. it.now.handler.ghost_name ≡ self.old.handler.ghost_name) }
        ensures handler { IfOk result (λ it. it.now.handler.now ≡ self.old.handler.now) }
        ensures added { IfOk result (λ it. report_of (diagnostic_of it.now) ≡ with_suggestion (report_of (diagnostic_of self.old)) (map (edits_at sp) suggestions.items) msg.now true Applicability.Unspecified) }
        ensures suggests { IfOk result (λ it. suggests it.now ≡ suggests self.old) }
    {
        match self.diagnostic.span_suggestions(sp, msg, suggestions) {
            Ok(_) => Ok(self),
            Err(_) => Err(AllocError),
        }
    }

    /// Suggests texts in place of spans, all of them together.
    ///
    /// # Errors
    ///
    /// `AllocError` for want of memory.
    pub fn multipart_suggestion(
        &mut self,
        msg: &str,
        suggestion: Vec<(Span, String)>,
    ) -> Result<&mut Self, AllocError>
        ensures same_reference { IfOk result (λ it. it.ghost_name ≡ self.entry.ghost_name) }
        ensures same_handler { IfOk result (λ it. it.now.handler.ghost_name ≡ self.old.handler.ghost_name) }
        ensures handler { IfOk result (λ it. it.now.handler.now ≡ self.old.handler.now) }
        ensures added { IfOk result (λ it. report_of (diagnostic_of it.now) ≡ with_suggestion (report_of (diagnostic_of self.old)) (map edit_from suggestion.items ∷ []) msg.now true Applicability.Unspecified) }
        ensures suggests { IfOk result (λ it. suggests it.now ≡ suggests self.old) }
    {
        match self.diagnostic.multipart_suggestion(msg, suggestion) {
            Ok(_) => Ok(self),
            Err(_) => Err(AllocError),
        }
    }

    /// Suggests a text in place of a span. It adds nothing where suggestions aren't allowed.
    ///
    /// # Errors
    ///
    /// `AllocError` for want of memory.
    pub fn span_suggestion_with_applicability(
        &mut self,
        sp: Span,
        msg: &str,
        suggestion: String,
        applicability: Applicability,
    ) -> Result<&mut Self, AllocError>
        ensures same_reference { IfOk result (λ it. it.ghost_name ≡ self.entry.ghost_name) }
        ensures same_handler { IfOk result (λ it. it.now.handler.ghost_name ≡ self.old.handler.ghost_name) }
        ensures handler { IfOk result (λ it. it.now.handler.now ≡ self.old.handler.now) }
        ensures added { IfOk result (λ it. report_of (diagnostic_of it.now) ≡ if_allowed (suggests self.old) (with_suggestion (report_of (diagnostic_of self.old)) (edits_at sp suggestion ∷ []) msg.now true applicability) (report_of (diagnostic_of self.old))) }
        ensures suggests { IfOk result (λ it. suggests it.now ≡ suggests self.old) }
    {
        if !self.allow_suggestions {
            return Ok(self);
        }
        match self
            .diagnostic
            .span_suggestion_with_applicability(sp, msg, suggestion, applicability)
        {
            Ok(_) => Ok(self),
            Err(_) => Err(AllocError),
        }
    }

    /// The same, where the message alone is shown inline. It adds nothing where suggestions aren't allowed.
    ///
    /// # Errors
    ///
    /// `AllocError` for want of memory.
    pub fn span_suggestion_short_with_applicability(
        &mut self,
        sp: Span,
        msg: &str,
        suggestion: String,
        applicability: Applicability,
    ) -> Result<&mut Self, AllocError>
        ensures same_reference { IfOk result (λ it. it.ghost_name ≡ self.entry.ghost_name) }
        ensures same_handler { IfOk result (λ it. it.now.handler.ghost_name ≡ self.old.handler.ghost_name) }
        ensures handler { IfOk result (λ it. it.now.handler.now ≡ self.old.handler.now) }
        ensures added { IfOk result (λ it. report_of (diagnostic_of it.now) ≡ if_allowed (suggests self.old) (with_suggestion (report_of (diagnostic_of self.old)) (edits_at sp suggestion ∷ []) msg.now false applicability) (report_of (diagnostic_of self.old))) }
        ensures suggests { IfOk result (λ it. suggests it.now ≡ suggests self.old) }
    {
        if !self.allow_suggestions {
            return Ok(self);
        }
        match self
            .diagnostic
            .span_suggestion_short_with_applicability(sp, msg, suggestion, applicability)
        {
            Ok(_) => Ok(self),
            Err(_) => Err(AllocError),
        }
    }

    /// Suggests several texts, any one of them in place of a span. It adds nothing where suggestions aren't allowed.
    ///
    /// # Errors
    ///
    /// `AllocError` for want of memory.
    pub fn span_suggestions_with_applicability(
        &mut self,
        sp: Span,
        msg: &str,
        suggestions: Vec<String>,
        applicability: Applicability,
    ) -> Result<&mut Self, AllocError>
        ensures same_reference { IfOk result (λ it. it.ghost_name ≡ self.entry.ghost_name) }
        ensures same_handler { IfOk result (λ it. it.now.handler.ghost_name ≡ self.old.handler.ghost_name) }
        ensures handler { IfOk result (λ it. it.now.handler.now ≡ self.old.handler.now) }
        ensures added { IfOk result (λ it. report_of (diagnostic_of it.now) ≡ if_allowed (suggests self.old) (with_suggestion (report_of (diagnostic_of self.old)) (map (edits_at sp) suggestions.items) msg.now true applicability) (report_of (diagnostic_of self.old))) }
        ensures suggests { IfOk result (λ it. suggests it.now ≡ suggests self.old) }
    {
        if !self.allow_suggestions {
            return Ok(self);
        }
        match self
            .diagnostic
            .span_suggestions_with_applicability(sp, msg, suggestions, applicability)
        {
            Ok(_) => Ok(self),
            Err(_) => Err(AllocError),
        }
    }

    /// Suggests texts in place of spans, all of them together. It adds nothing where suggestions aren't allowed.
    ///
    /// # Errors
    ///
    /// `AllocError` for want of memory.
    pub fn multipart_suggestion_with_applicability(
        &mut self,
        msg: &str,
        suggestion: Vec<(Span, String)>,
        applicability: Applicability,
    ) -> Result<&mut Self, AllocError>
        ensures same_reference { IfOk result (λ it. it.ghost_name ≡ self.entry.ghost_name) }
        ensures same_handler { IfOk result (λ it. it.now.handler.ghost_name ≡ self.old.handler.ghost_name) }
        ensures handler { IfOk result (λ it. it.now.handler.now ≡ self.old.handler.now) }
        ensures added { IfOk result (λ it. report_of (diagnostic_of it.now) ≡ if_allowed (suggests self.old) (with_suggestion (report_of (diagnostic_of self.old)) (map edit_from suggestion.items ∷ []) msg.now true applicability) (report_of (diagnostic_of self.old))) }
        ensures suggests { IfOk result (λ it. suggests it.now ≡ suggests self.old) }
    {
        if !self.allow_suggestions {
            return Ok(self);
        }
        match self
            .diagnostic
            .multipart_suggestion_with_applicability(msg, suggestion, applicability)
        {
            Ok(_) => Ok(self),
            Err(_) => Err(AllocError),
        }
    }
}
