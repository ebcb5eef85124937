//! What may be said of a report while it is made: where it is, its code, labels and notes.

use super::DiagnosticBuilder;
use crate::Emitter;
use jsx_base::{MultiSpan, Span};
use jsx_diag::{DiagnosticId, DiagnosticStyledString, Level};
use std::alloc::AllocError;

impl<E: Emitter> DiagnosticBuilder<'_, E> {
    ghost use Rattle.std.specs.Prelude.{◌≡◌, [], None, Some, IfOk, string_bytes};
    ghost use Rattle.std.specs.Option.{option_map};
    ghost use Rattle.jsx_base.specs.MultiSpan.{spans_of};
    ghost use Rattle.jsx_diag.specs.Data.{code_of, parts_of, report_of};
    ghost use Rattle.jsx_diag.specs.Adds.{expected_found, note_of, nowhere, plain_child, with_child, with_label};
    ghost use Rattle.jsx_report.specs.Builder.{diagnostic_of, spans_or_nowhere, suggests};

    /// From now on it points there.
    pub fn set_span(&mut self, sp: MultiSpan) -> &mut Self
        ensures same_reference { result.ghost_name ≡ self.entry.ghost_name }
        ensures same_handler { result.now.handler.ghost_name ≡ self.old.handler.ghost_name }
        ensures handler { result.now.handler.now ≡ self.old.handler.now }
        ensures set_span { report_of (diagnostic_of result.now) ≡ record (report_of (diagnostic_of self.old)) { span = spans_of sp } }
        ensures suggests { suggests result.now ≡ suggests self.old }
    {
        self.diagnostic.set_span(sp);
        self
    }

    /// From now on it has this code.
    pub fn code(&mut self, s: DiagnosticId) -> &mut Self
        ensures same_reference { result.ghost_name ≡ self.entry.ghost_name }
        ensures same_handler { result.now.handler.ghost_name ≡ self.old.handler.ghost_name }
        ensures handler { result.now.handler.now ≡ self.old.handler.now }
        ensures code { report_of (diagnostic_of result.now) ≡ record (report_of (diagnostic_of self.old)) { code = Some (code_of s) } }
        ensures suggests { suggests result.now ≡ suggests self.old }
    {
        self.diagnostic.code(s);
        self
    }

    /// Adds a label at a span.
    ///
    /// # Errors
    ///
    /// `AllocError` for want of memory.
    pub fn span_label(&mut self, span: Span, label: String) -> Result<&mut Self, AllocError>
        ensures same_reference { IfOk result (λ it. it.ghost_name ≡ self.entry.ghost_name) }
        ensures same_handler { IfOk result (λ it. it.now.handler.ghost_name ≡ self.old.handler.ghost_name) }
        ensures handler { IfOk result (λ it. it.now.handler.now ≡ self.old.handler.now) }
        ensures added { IfOk result (λ it. report_of (diagnostic_of it.now) ≡ with_label (report_of (diagnostic_of self.old)) span (string_bytes label)) }
        ensures suggests { IfOk result (λ it. suggests it.now ≡ suggests self.old) }
    {
        match self.diagnostic.span_label(span, label) {
            Ok(_) => Ok(self),
            Err(_) => Err(AllocError),
        }
    }

    /// Adds a note that points nowhere.
    ///
    /// # Errors
    ///
    /// `AllocError` for want of memory.
    pub fn note(&mut self, msg: &str) -> Result<&mut Self, AllocError>
        ensures same_reference { IfOk result (λ it. it.ghost_name ≡ self.entry.ghost_name) }
        ensures same_handler { IfOk result (λ it. it.now.handler.ghost_name ≡ self.old.handler.ghost_name) }
        ensures handler { IfOk result (λ it. it.now.handler.now ≡ self.old.handler.now) }
        ensures added { IfOk result (λ it. report_of (diagnostic_of it.now) ≡ with_child (report_of (diagnostic_of self.old)) (plain_child Level.Note msg.now nowhere None)) }
        ensures suggests { IfOk result (λ it. suggests it.now ≡ suggests self.old) }
    {
        match self.diagnostic.note(msg) {
            Ok(_) => Ok(self),
            Err(_) => Err(AllocError),
        }
    }

    /// Adds a note that points at these spans.
    ///
    /// # Errors
    ///
    /// `AllocError` for want of memory.
    pub fn span_note(&mut self, sp: MultiSpan, msg: &str) -> Result<&mut Self, AllocError>
        ensures same_reference { IfOk result (λ it. it.ghost_name ≡ self.entry.ghost_name) }
        ensures same_handler { IfOk result (λ it. it.now.handler.ghost_name ≡ self.old.handler.ghost_name) }
        ensures handler { IfOk result (λ it. it.now.handler.now ≡ self.old.handler.now) }
        ensures added { IfOk result (λ it. report_of (diagnostic_of it.now) ≡ with_child (report_of (diagnostic_of self.old)) (plain_child Level.Note msg.now (spans_of sp) None)) }
        ensures suggests { IfOk result (λ it. suggests it.now ≡ suggests self.old) }
    {
        match self.diagnostic.span_note(sp, msg) {
            Ok(_) => Ok(self),
            Err(_) => Err(AllocError),
        }
    }

    /// Adds a warning that points nowhere.
    ///
    /// # Errors
    ///
    /// `AllocError` for want of memory.
    pub fn warn(&mut self, msg: &str) -> Result<&mut Self, AllocError>
        ensures same_reference { IfOk result (λ it. it.ghost_name ≡ self.entry.ghost_name) }
        ensures same_handler { IfOk result (λ it. it.now.handler.ghost_name ≡ self.old.handler.ghost_name) }
        ensures handler { IfOk result (λ it. it.now.handler.now ≡ self.old.handler.now) }
        ensures added { IfOk result (λ it. report_of (diagnostic_of it.now) ≡ with_child (report_of (diagnostic_of self.old)) (plain_child Level.Warning msg.now nowhere None)) }
        ensures suggests { IfOk result (λ it. suggests it.now ≡ suggests self.old) }
    {
        match self.diagnostic.warn(msg) {
            Ok(_) => Ok(self),
            Err(_) => Err(AllocError),
        }
    }

    /// Adds a warning that points at these spans.
    ///
    /// # Errors
    ///
    /// `AllocError` for want of memory.
    pub fn span_warn(&mut self, sp: MultiSpan, msg: &str) -> Result<&mut Self, AllocError>
        ensures same_reference { IfOk result (λ it. it.ghost_name ≡ self.entry.ghost_name) }
        ensures same_handler { IfOk result (λ it. it.now.handler.ghost_name ≡ self.old.handler.ghost_name) }
        ensures handler { IfOk result (λ it. it.now.handler.now ≡ self.old.handler.now) }
        ensures added { IfOk result (λ it. report_of (diagnostic_of it.now) ≡ with_child (report_of (diagnostic_of self.old)) (plain_child Level.Warning msg.now (spans_of sp) None)) }
        ensures suggests { IfOk result (λ it. suggests it.now ≡ suggests self.old) }
    {
        match self.diagnostic.span_warn(sp, msg) {
            Ok(_) => Ok(self),
            Err(_) => Err(AllocError),
        }
    }

    /// Adds a help that points nowhere.
    ///
    /// # Errors
    ///
    /// `AllocError` for want of memory.
    pub fn help(&mut self, msg: &str) -> Result<&mut Self, AllocError>
        ensures same_reference { IfOk result (λ it. it.ghost_name ≡ self.entry.ghost_name) }
        ensures same_handler { IfOk result (λ it. it.now.handler.ghost_name ≡ self.old.handler.ghost_name) }
        ensures handler { IfOk result (λ it. it.now.handler.now ≡ self.old.handler.now) }
        ensures added { IfOk result (λ it. report_of (diagnostic_of it.now) ≡ with_child (report_of (diagnostic_of self.old)) (plain_child Level.Help msg.now nowhere None)) }
        ensures suggests { IfOk result (λ it. suggests it.now ≡ suggests self.old) }
    {
        match self.diagnostic.help(msg) {
            Ok(_) => Ok(self),
            Err(_) => Err(AllocError),
        }
    }

    /// Adds a help that points at these spans.
    ///
    /// # Errors
    ///
    /// `AllocError` for want of memory.
    pub fn span_help(&mut self, sp: MultiSpan, msg: &str) -> Result<&mut Self, AllocError>
        ensures same_reference { IfOk result (λ it. it.ghost_name ≡ self.entry.ghost_name) }
        ensures same_handler { IfOk result (λ it. it.now.handler.ghost_name ≡ self.old.handler.ghost_name) }
        ensures handler { IfOk result (λ it. it.now.handler.now ≡ self.old.handler.now) }
        ensures added { IfOk result (λ it. report_of (diagnostic_of it.now) ≡ with_child (report_of (diagnostic_of self.old)) (plain_child Level.Help msg.now (spans_of sp) None)) }
        ensures suggests { IfOk result (λ it. suggests it.now ≡ suggests self.old) }
    {
        match self.diagnostic.span_help(sp, msg) {
            Ok(_) => Ok(self),
            Err(_) => Err(AllocError),
        }
    }

    /// Adds a note that shows, on a line each, what was expected and what was found.
    ///
    /// # Errors
    ///
    /// `AllocError` for want of memory.
    pub fn note_expected_found(
        &mut self,
        label: &str,
        expected: DiagnosticStyledString,
        found: DiagnosticStyledString,
    ) -> Result<&mut Self, AllocError>
        ensures same_reference { IfOk result (λ it. it.ghost_name ≡ self.entry.ghost_name) }
        ensures same_handler { IfOk result (λ it. it.now.handler.ghost_name ≡ self.old.handler.ghost_name) }
        ensures handler { IfOk result (λ it. it.now.handler.now ≡ self.old.handler.now) }
        ensures added { IfOk result (λ it. report_of (diagnostic_of it.now) ≡ with_child (report_of (diagnostic_of self.old)) (note_of (expected_found label.now (parts_of expected) (parts_of found) [] []))) }
        ensures suggests { IfOk result (λ it. suggests it.now ≡ suggests self.old) }
    {
        match self.diagnostic.note_expected_found(label, expected, found) {
            Ok(_) => Ok(self),
            Err(_) => Err(AllocError),
        }
    }

    /// The same, with a text behind each.
    ///
    /// # Errors
    ///
    /// `AllocError` for want of memory.
    pub fn note_expected_found_extra(
        &mut self,
        label: &str,
        expected: DiagnosticStyledString,
        found: DiagnosticStyledString,
        expected_extra: &str,
        found_extra: &str,
    ) -> Result<&mut Self, AllocError>
        ensures same_reference { IfOk result (λ it. it.ghost_name ≡ self.entry.ghost_name) }
        ensures same_handler { IfOk result (λ it. it.now.handler.ghost_name ≡ self.old.handler.ghost_name) }
        ensures handler { IfOk result (λ it. it.now.handler.now ≡ self.old.handler.now) }
        ensures added { IfOk result (λ it. report_of (diagnostic_of it.now) ≡ with_child (report_of (diagnostic_of self.old)) (note_of (expected_found label.now (parts_of expected) (parts_of found) expected_extra.now found_extra.now))) }
        ensures suggests { IfOk result (λ it. suggests it.now ≡ suggests self.old) }
    {
        match self
            .diagnostic
            .note_expected_found_extra(label, expected, found, expected_extra, found_extra)
        {
            Ok(_) => Ok(self),
            Err(_) => Err(AllocError),
        }
    }

    /// Adds a note of this level and one plain message. Without spans it points nowhere.
    ///
    /// # Errors
    ///
    /// `AllocError` for want of memory.
    pub fn sub(
        &mut self,
        level: Level,
        message: &str,
        span: Option<MultiSpan>,
    ) -> Result<&mut Self, AllocError>
        ensures same_reference { IfOk result (λ it. it.ghost_name ≡ self.entry.ghost_name) }
        ensures same_handler { IfOk result (λ it. it.now.handler.ghost_name ≡ self.old.handler.ghost_name) }
        ensures handler { IfOk result (λ it. it.now.handler.now ≡ self.old.handler.now) }
        ensures added { IfOk result (λ it. report_of (diagnostic_of it.now) ≡ with_child (report_of (diagnostic_of self.old)) (plain_child level message.now (spans_or_nowhere (option_map spans_of span)) None)) }
        ensures suggests { IfOk result (λ it. suggests it.now ≡ suggests self.old) }
    {
        let span = span.unwrap_or(MultiSpan::new(self.handler.allocator()));
        match self.diagnostic.sub(level, message, span, None) {
            Ok(_) => Ok(self),
            Err(_) => Err(AllocError),
        }
    }
}
