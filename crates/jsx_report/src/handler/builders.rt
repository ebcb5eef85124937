//! Reports to be made further, one call for each level.

use crate::reports::made_at;
use crate::{DiagnosticBuilder, Emitter, Handler, HandlerError};
use jsx_base::{MultiSpan, Span};
use jsx_diag::{DiagnosticId, Level};
use std::alloc::AllocError;

impl<E: Emitter> Handler<E> {
    ghost use Rattle.std.specs.Prelude.{◌≡◌, [], ◌∷◌, true, Some, None, Ok, IfOk};
    ghost use Rattle.std.specs.Option.{option_map};
    ghost use Rattle.std.specs.Borrow.{sem, RestsIfErr};
    ghost use Rattle.jsx_base.specs.MultiSpan.{spans_of};
    ghost use Rattle.jsx_diag.specs.Data.{code_of, report_of};
    ghost use Rattle.jsx_diag.specs.Adds.{new_report, nowhere};
    ghost use Rattle.jsx_report.specs.contracts.handler.Handler.{the_row};
    ghost use Rattle.jsx_report.specs.Made.{heard, plain_report, report_at};
    ghost use Rattle.jsx_report.specs.Handler.{HandsIn, UnlessRefused, books_of};
    ghost use Rattle.jsx_report.specs.Builder.{diagnostic_of, suggests};

    /// A cancelled report.
    ///
    /// # Errors
    ///
    /// `AllocError` for want of memory.
    pub fn struct_dummy(&mut self) -> Result<DiagnosticBuilder<'_, E>, AllocError>
        ensures same_reference { IfOk result (λ it. it.handler.ghost_name ≡ self.entry.ghost_name) }
        ensures same_handler { IfOk result (λ it. it.handler.now ≡ self.old) }
        ensures report { IfOk result (λ it. report_of (diagnostic_of it) ≡ plain_report Level.Cancelled []) }
        ensures suggests { IfOk result (λ it. suggests it ≡ true) }
        ensures* refused { sem 𝓛 (RestsIfErr (the_row E.row) self.entry (λ it. it.handler.ghost_name) result (λ last. last ≡ self.old)) }
    {
        DiagnosticBuilder::new(self, Level::Cancelled, "")
    }

    /// A warning at these spans. It is cancelled where warnings are off.
    ///
    /// # Errors
    ///
    /// `AllocError` for want of memory.
    pub fn struct_span_warn(
        &mut self,
        sp: MultiSpan,
        msg: &str,
    ) -> Result<DiagnosticBuilder<'_, E>, AllocError>
        ensures same_reference { IfOk result (λ it. it.handler.ghost_name ≡ self.entry.ghost_name) }
        ensures same_handler { IfOk result (λ it. it.handler.now ≡ self.old) }
        ensures report { IfOk result (λ it. report_of (diagnostic_of it) ≡ report_at (heard self.old.flags Level.Warning) None msg.now (spans_of sp)) }
        ensures suggests { IfOk result (λ it. suggests it ≡ true) }
        ensures* refused { sem 𝓛 (RestsIfErr (the_row E.row) self.entry (λ it. it.handler.ghost_name) result (λ last. last ≡ self.old)) }
    {
        let level = self.heard(Level::Warning);
        self.build(level, None, msg, sp)
    }

    /// The same, with a code.
    ///
    /// # Errors
    ///
    /// `AllocError` for want of memory.
    pub fn struct_span_warn_with_code(
        &mut self,
        sp: MultiSpan,
        msg: &str,
        code: DiagnosticId,
    ) -> Result<DiagnosticBuilder<'_, E>, AllocError>
        ensures same_reference { IfOk result (λ it. it.handler.ghost_name ≡ self.entry.ghost_name) }
        ensures same_handler { IfOk result (λ it. it.handler.now ≡ self.old) }
        ensures report { IfOk result (λ it. report_of (diagnostic_of it) ≡ report_at (heard self.old.flags Level.Warning) (Some (code_of code)) msg.now (spans_of sp)) }
        ensures suggests { IfOk result (λ it. suggests it ≡ true) }
        ensures* refused { sem 𝓛 (RestsIfErr (the_row E.row) self.entry (λ it. it.handler.ghost_name) result (λ last. last ≡ self.old)) }
    {
        let level = self.heard(Level::Warning);
        self.build(level, Some(code), msg, sp)
    }

    /// A warning that points nowhere. It is cancelled where warnings are off.
    ///
    /// # Errors
    ///
    /// `AllocError` for want of memory.
    pub fn struct_warn(&mut self, msg: &str) -> Result<DiagnosticBuilder<'_, E>, AllocError>
        ensures same_reference { IfOk result (λ it. it.handler.ghost_name ≡ self.entry.ghost_name) }
        ensures same_handler { IfOk result (λ it. it.handler.now ≡ self.old) }
        ensures report { IfOk result (λ it. report_of (diagnostic_of it) ≡ report_at (heard self.old.flags Level.Warning) None msg.now nowhere) }
        ensures suggests { IfOk result (λ it. suggests it ≡ true) }
        ensures* refused { sem 𝓛 (RestsIfErr (the_row E.row) self.entry (λ it. it.handler.ghost_name) result (λ last. last ≡ self.old)) }
    {
        let level = self.heard(Level::Warning);
        let span = MultiSpan::new(self.allocator());
        self.build(level, None, msg, span)
    }

    /// An error at these spans.
    ///
    /// # Errors
    ///
    /// `AllocError` for want of memory.
    pub fn struct_span_err(
        &mut self,
        sp: MultiSpan,
        msg: &str,
    ) -> Result<DiagnosticBuilder<'_, E>, AllocError>
        ensures same_reference { IfOk result (λ it. it.handler.ghost_name ≡ self.entry.ghost_name) }
        ensures same_handler { IfOk result (λ it. it.handler.now ≡ self.old) }
        ensures report { IfOk result (λ it. report_of (diagnostic_of it) ≡ report_at Level.Error None msg.now (spans_of sp)) }
        ensures suggests { IfOk result (λ it. suggests it ≡ true) }
        ensures* refused { sem 𝓛 (RestsIfErr (the_row E.row) self.entry (λ it. it.handler.ghost_name) result (λ last. last ≡ self.old)) }
    {
        self.build(Level::Error, None, msg, sp)
    }

    /// The same, with a code.
    ///
    /// # Errors
    ///
    /// `AllocError` for want of memory.
    pub fn struct_span_err_with_code(
        &mut self,
        sp: MultiSpan,
        msg: &str,
        code: DiagnosticId,
    ) -> Result<DiagnosticBuilder<'_, E>, AllocError>
        ensures same_reference { IfOk result (λ it. it.handler.ghost_name ≡ self.entry.ghost_name) }
        ensures same_handler { IfOk result (λ it. it.handler.now ≡ self.old) }
        ensures report { IfOk result (λ it. report_of (diagnostic_of it) ≡ report_at Level.Error (Some (code_of code)) msg.now (spans_of sp)) }
        ensures suggests { IfOk result (λ it. suggests it ≡ true) }
        ensures* refused { sem 𝓛 (RestsIfErr (the_row E.row) self.entry (λ it. it.handler.ghost_name) result (λ last. last ≡ self.old)) }
    {
        self.build(Level::Error, Some(code), msg, sp)
    }

    /// An error that points nowhere.
    ///
    /// # Errors
    ///
    /// `AllocError` for want of memory.
    pub fn struct_err(&mut self, msg: &str) -> Result<DiagnosticBuilder<'_, E>, AllocError>
        ensures same_reference { IfOk result (λ it. it.handler.ghost_name ≡ self.entry.ghost_name) }
        ensures same_handler { IfOk result (λ it. it.handler.now ≡ self.old) }
        ensures report { IfOk result (λ it. report_of (diagnostic_of it) ≡ report_at Level.Error None msg.now nowhere) }
        ensures suggests { IfOk result (λ it. suggests it ≡ true) }
        ensures* refused { sem 𝓛 (RestsIfErr (the_row E.row) self.entry (λ it. it.handler.ghost_name) result (λ last. last ≡ self.old)) }
    {
        let span = MultiSpan::new(self.allocator());
        self.build(Level::Error, None, msg, span)
    }

    /// The same, with a code.
    ///
    /// # Errors
    ///
    /// `AllocError` for want of memory.
    pub fn struct_err_with_code(
        &mut self,
        msg: &str,
        code: DiagnosticId,
    ) -> Result<DiagnosticBuilder<'_, E>, AllocError>
        ensures same_reference { IfOk result (λ it. it.handler.ghost_name ≡ self.entry.ghost_name) }
        ensures same_handler { IfOk result (λ it. it.handler.now ≡ self.old) }
        ensures report { IfOk result (λ it. report_of (diagnostic_of it) ≡ report_at Level.Error (Some (code_of code)) msg.now nowhere) }
        ensures suggests { IfOk result (λ it. suggests it ≡ true) }
        ensures* refused { sem 𝓛 (RestsIfErr (the_row E.row) self.entry (λ it. it.handler.ghost_name) result (λ last. last ≡ self.old)) }
    {
        let span = MultiSpan::new(self.allocator());
        self.build(Level::Error, Some(code), msg, span)
    }

    /// A fatal error at these spans.
    ///
    /// # Errors
    ///
    /// `AllocError` for want of memory.
    pub fn struct_span_fatal(
        &mut self,
        sp: MultiSpan,
        msg: &str,
    ) -> Result<DiagnosticBuilder<'_, E>, AllocError>
        ensures same_reference { IfOk result (λ it. it.handler.ghost_name ≡ self.entry.ghost_name) }
        ensures same_handler { IfOk result (λ it. it.handler.now ≡ self.old) }
        ensures report { IfOk result (λ it. report_of (diagnostic_of it) ≡ report_at Level.Fatal None msg.now (spans_of sp)) }
        ensures suggests { IfOk result (λ it. suggests it ≡ true) }
        ensures* refused { sem 𝓛 (RestsIfErr (the_row E.row) self.entry (λ it. it.handler.ghost_name) result (λ last. last ≡ self.old)) }
    {
        self.build(Level::Fatal, None, msg, sp)
    }

    /// The same, with a code.
    ///
    /// # Errors
    ///
    /// `AllocError` for want of memory.
    pub fn struct_span_fatal_with_code(
        &mut self,
        sp: MultiSpan,
        msg: &str,
        code: DiagnosticId,
    ) -> Result<DiagnosticBuilder<'_, E>, AllocError>
        ensures same_reference { IfOk result (λ it. it.handler.ghost_name ≡ self.entry.ghost_name) }
        ensures same_handler { IfOk result (λ it. it.handler.now ≡ self.old) }
        ensures report { IfOk result (λ it. report_of (diagnostic_of it) ≡ report_at Level.Fatal (Some (code_of code)) msg.now (spans_of sp)) }
        ensures suggests { IfOk result (λ it. suggests it ≡ true) }
        ensures* refused { sem 𝓛 (RestsIfErr (the_row E.row) self.entry (λ it. it.handler.ghost_name) result (λ last. last ≡ self.old)) }
    {
        self.build(Level::Fatal, Some(code), msg, sp)
    }

    /// A fatal error that points nowhere.
    ///
    /// # Errors
    ///
    /// `AllocError` for want of memory.
    pub fn struct_fatal(&mut self, msg: &str) -> Result<DiagnosticBuilder<'_, E>, AllocError>
        ensures same_reference { IfOk result (λ it. it.handler.ghost_name ≡ self.entry.ghost_name) }
        ensures same_handler { IfOk result (λ it. it.handler.now ≡ self.old) }
        ensures report { IfOk result (λ it. report_of (diagnostic_of it) ≡ report_at Level.Fatal None msg.now nowhere) }
        ensures suggests { IfOk result (λ it. suggests it ≡ true) }
        ensures* refused { sem 𝓛 (RestsIfErr (the_row E.row) self.entry (λ it. it.handler.ghost_name) result (λ last. last ≡ self.old)) }
    {
        let span = MultiSpan::new(self.allocator());
        self.build(Level::Fatal, None, msg, span)
    }

    /// An error at these spans, as of `struct_span_err`.
    ///
    /// # Errors
    ///
    /// `AllocError` for want of memory.
    pub fn mut_span_err(
        &mut self,
        sp: MultiSpan,
        msg: &str,
    ) -> Result<DiagnosticBuilder<'_, E>, AllocError>
        ensures same_reference { IfOk result (λ it. it.handler.ghost_name ≡ self.entry.ghost_name) }
        ensures same_handler { IfOk result (λ it. it.handler.now ≡ self.old) }
        ensures report { IfOk result (λ it. report_of (diagnostic_of it) ≡ report_at Level.Error None msg.now (spans_of sp)) }
        ensures suggests { IfOk result (λ it. suggests it ≡ true) }
        ensures* refused { sem 𝓛 (RestsIfErr (the_row E.row) self.entry (λ it. it.handler.ghost_name) result (λ last. last ≡ self.old)) }
    {
        self.build(Level::Error, None, msg, sp)
    }

    /// A note at a span.
    ///
    /// # Errors
    ///
    /// `AllocError` for want of memory.
    pub fn span_note_diag(
        &mut self,
        sp: Span,
        msg: &str,
    ) -> Result<DiagnosticBuilder<'_, E>, AllocError>
        ensures same_reference { IfOk result (λ it. it.handler.ghost_name ≡ self.entry.ghost_name) }
        ensures same_handler { IfOk result (λ it. it.handler.now ≡ self.old) }
        ensures report { IfOk result (λ it. report_of (diagnostic_of it) ≡ report_at Level.Note None msg.now (record { primary = sp ∷ []; labels = [] })) }
        ensures suggests { IfOk result (λ it. suggests it ≡ true) }
        ensures* refused { sem 𝓛 (RestsIfErr (the_row E.row) self.entry (λ it. it.handler.ghost_name) result (λ last. last ≡ self.old)) }
    {
        let Ok(span) = MultiSpan::from_span(self.allocator(), sp) else {
            return Err(AllocError);
        };
        self.build(Level::Note, None, msg, span)
    }

    /// Lets the report go. Nothing is printed.
    pub fn cancel(err: DiagnosticBuilder<'_, E>)
        ensures { err.exit.0.now ≡ err.entry.handler.now }
    {
        err.cancel();
    }

    /// Prints the report, also where an equal one was entered or it is cancelled, and enters nothing.
    ///
    /// # Errors
    ///
    /// `Emit` where the emitter refused it.
    pub fn force_print_db(db: DiagnosticBuilder<'_, E>) -> Result<(), HandlerError>
        ensures hands { HandsIn E.text E.faults E.explains E.shows (report_of (diagnostic_of db.entry) ∷ []) (books_of db.entry.handler.now) db.entry.handler.now db.exit.0.now result }
        ensures answer { UnlessRefused result (result ≡ Ok tt) }
    {
        db.print()
    }

    // The level, or `Cancelled` for a warning where warnings are off.
    fn heard(&self, level: Level) -> Level
        ensures { result ≡ heard self.now.flags level }
    {
        if level == Level::Warning && !self.flags.can_emit_warnings {
            Level::Cancelled
        } else {
            level
        }
    }

    // A report of one plain message, which points at these spans.
    fn build(
        &mut self,
        level: Level,
        code: Option<DiagnosticId>,
        msg: &str,
        span: MultiSpan,
    ) -> Result<DiagnosticBuilder<'_, E>, AllocError>
        ensures same_reference { IfOk result (λ it. it.handler.ghost_name ≡ self.entry.ghost_name) }
        ensures same_handler { IfOk result (λ it. it.handler.now ≡ self.old) }
        ensures report { IfOk result (λ it. report_of (diagnostic_of it) ≡ report_at level (option_map code_of code) msg.now (spans_of span)) }
        ensures suggests { IfOk result (λ it. suggests it ≡ true) }
        ensures* refused { sem 𝓛 (RestsIfErr (the_row E.row) self.entry (λ it. it.handler.ghost_name) result (λ last. last ≡ self.old)) }
    {
        match made_at(self.allocator(), level, code, msg, span) {
            Ok(diagnostic) => DiagnosticBuilder::new_diagnostic(self, diagnostic),
            Err(error) => Err(error),
        }
    }
}
