//! Reports of one plain message, one call for each level.

use crate::{Emitter, Handler, HandlerError};
use jsx_base::MultiSpan;
use jsx_diag::{DiagnosticId, FatalError, Level};

impl<E: Emitter> Handler<E> {
    ghost use Rattle.std.specs.Prelude.{◌≡◌, Some, None, Ok, IsTrue, if◌then◌else◌};
    ghost use Rattle.std.specs.Option.{option_map};
    ghost use Rattle.jsx_base.specs.MultiSpan.{spans_of};
    ghost use Rattle.jsx_diag.specs.Data.{code_of};
    ghost use Rattle.jsx_report.specs.Made.{heard, is_off, plain_report, report_at};
    ghost use Rattle.jsx_report.specs.Handler.{UnlessRefused, Reports, answer_stopping, answer_to, as_fatal, books_of, continues, stop_after};

    /// Reports a message of this level at these spans. A warning is nothing where warnings are off.
    ///
    /// # Errors
    ///
    /// `FatalError` where work doesn't go on after an error and one was counted, `ExplicitBug` where a
    /// new error shows a bug, `Emit` where the emitter refused it, `Memory` for want of memory. After the
    /// last two the books are as before.
    pub fn emit(&mut self, msp: &MultiSpan, msg: &str, lvl: Level) -> Result<(), HandlerError>
        ensures reports { Reports E.text E.faults E.explains E.shows (report_at (heard self.old.flags lvl) None msg.now (spans_of msp.now)) self.old self.new result }
        ensures answer { UnlessRefused result (result ≡ (if is_off self.old.flags lvl then Ok tt else answer_stopping self.old.flags (continues self.old) (books_of self.old) (report_at lvl None msg.now (spans_of msp.now)))) }
        ensures off { IsTrue (is_off self.old.flags lvl) → result ≡ Ok tt }
    {
        self.emit_copied(msp, msg, None, lvl)
    }

    /// The same, with a code.
    ///
    /// # Errors
    ///
    /// `FatalError` where work doesn't go on after an error and one was counted, `ExplicitBug` where a
    /// new error shows a bug, `Emit` where the emitter refused it, `Memory` for want of memory. After the
    /// last two the books are as before.
    pub fn emit_with_code(
        &mut self,
        msp: &MultiSpan,
        msg: &str,
        code: DiagnosticId,
        lvl: Level,
    ) -> Result<(), HandlerError>
        ensures reports { Reports E.text E.faults E.explains E.shows (report_at (heard self.old.flags lvl) (Some (code_of code)) msg.now (spans_of msp.now)) self.old self.new result }
        ensures answer { UnlessRefused result (result ≡ (if is_off self.old.flags lvl then Ok tt else answer_stopping self.old.flags (continues self.old) (books_of self.old) (report_at lvl (Some (code_of code)) msg.now (spans_of msp.now)))) }
        ensures off { IsTrue (is_off self.old.flags lvl) → result ≡ Ok tt }
    {
        self.emit_copied(msp, msg, Some(code), lvl)
    }

    /// Reports an error at these spans.
    ///
    /// # Errors
    ///
    /// `FatalError` where work doesn't go on after an error and one was counted, `ExplicitBug` where a
    /// new error shows a bug, `Emit` where the emitter refused it, `Memory` for want of memory. After the
    /// last two the books are as before.
    pub fn span_err(&mut self, sp: MultiSpan, msg: &str) -> Result<(), HandlerError>
        ensures reports { Reports E.text E.faults E.explains E.shows (report_at Level.Error None msg.now (spans_of sp)) self.old self.new result }
        ensures answer { UnlessRefused result (result ≡ answer_stopping self.old.flags (continues self.old) (books_of self.old) (report_at Level.Error None msg.now (spans_of sp))) }
    {
        self.emit_at(sp, msg, None, Level::Error)
    }

    /// The same, with a code.
    ///
    /// # Errors
    ///
    /// `FatalError` where work doesn't go on after an error and one was counted, `ExplicitBug` where a
    /// new error shows a bug, `Emit` where the emitter refused it, `Memory` for want of memory. After the
    /// last two the books are as before.
    pub fn span_err_with_code(
        &mut self,
        sp: MultiSpan,
        msg: &str,
        code: DiagnosticId,
    ) -> Result<(), HandlerError>
        ensures reports { Reports E.text E.faults E.explains E.shows (report_at Level.Error (Some (code_of code)) msg.now (spans_of sp)) self.old self.new result }
        ensures answer { UnlessRefused result (result ≡ answer_stopping self.old.flags (continues self.old) (books_of self.old) (report_at Level.Error (Some (code_of code)) msg.now (spans_of sp))) }
    {
        self.emit_at(sp, msg, Some(code), Level::Error)
    }

    /// Reports a warning at these spans. It is nothing where warnings are off.
    ///
    /// # Errors
    ///
    /// `FatalError` where work doesn't go on after an error and one was counted, `ExplicitBug` where a
    /// new error shows a bug, `Emit` where the emitter refused it, `Memory` for want of memory. After the
    /// last two the books are as before.
    pub fn span_warn(&mut self, sp: MultiSpan, msg: &str) -> Result<(), HandlerError>
        ensures reports { Reports E.text E.faults E.explains E.shows (report_at (heard self.old.flags Level.Warning) None msg.now (spans_of sp)) self.old self.new result }
        ensures answer { UnlessRefused result (result ≡ (if is_off self.old.flags Level.Warning then Ok tt else answer_stopping self.old.flags (continues self.old) (books_of self.old) (report_at Level.Warning None msg.now (spans_of sp)))) }
        ensures off { IsTrue (is_off self.old.flags Level.Warning) → result ≡ Ok tt }
    {
        self.emit_at(sp, msg, None, Level::Warning)
    }

    /// The same, with a code.
    ///
    /// # Errors
    ///
    /// `FatalError` where work doesn't go on after an error and one was counted, `ExplicitBug` where a
    /// new error shows a bug, `Emit` where the emitter refused it, `Memory` for want of memory. After the
    /// last two the books are as before.
    pub fn span_warn_with_code(
        &mut self,
        sp: MultiSpan,
        msg: &str,
        code: DiagnosticId,
    ) -> Result<(), HandlerError>
        ensures reports { Reports E.text E.faults E.explains E.shows (report_at (heard self.old.flags Level.Warning) (Some (code_of code)) msg.now (spans_of sp)) self.old self.new result }
        ensures answer { UnlessRefused result (result ≡ (if is_off self.old.flags Level.Warning then Ok tt else answer_stopping self.old.flags (continues self.old) (books_of self.old) (report_at Level.Warning (Some (code_of code)) msg.now (spans_of sp)))) }
        ensures off { IsTrue (is_off self.old.flags Level.Warning) → result ≡ Ok tt }
    {
        self.emit_at(sp, msg, Some(code), Level::Warning)
    }

    /// Reports a bug of the program at these spans.
    ///
    /// # Errors
    ///
    /// `FatalError` where work doesn't go on after an error and one was counted, `ExplicitBug` where a
    /// new error shows a bug, `Emit` where the emitter refused it, `Memory` for want of memory. After the
    /// last two the books are as before.
    pub fn span_bug_no_panic(&mut self, sp: MultiSpan, msg: &str) -> Result<(), HandlerError>
        ensures reports { Reports E.text E.faults E.explains E.shows (report_at Level.Bug None msg.now (spans_of sp)) self.old self.new result }
        ensures answer { UnlessRefused result (result ≡ answer_stopping self.old.flags (continues self.old) (books_of self.old) (report_at Level.Bug None msg.now (spans_of sp))) }
    {
        self.emit_at(sp, msg, None, Level::Bug)
    }

    /// Reports a note at these spans.
    ///
    /// # Errors
    ///
    /// `FatalError` where work doesn't go on after an error and one was counted, `ExplicitBug` where a
    /// new error shows a bug, `Emit` where the emitter refused it, `Memory` for want of memory. After the
    /// last two the books are as before.
    pub fn span_note_without_error(&mut self, sp: MultiSpan, msg: &str) -> Result<(), HandlerError>
        ensures reports { Reports E.text E.faults E.explains E.shows (report_at Level.Note None msg.now (spans_of sp)) self.old self.new result }
        ensures answer { UnlessRefused result (result ≡ answer_stopping self.old.flags (continues self.old) (books_of self.old) (report_at Level.Note None msg.now (spans_of sp))) }
    {
        self.emit_at(sp, msg, None, Level::Note)
    }

    /// Reports a fatal error at these spans, and answers that no further work makes sense.
    ///
    /// # Errors
    ///
    /// `FatalError` where work doesn't go on after an error and one was counted, `ExplicitBug` where a
    /// new error shows a bug, `Emit` where the emitter refused it, `Memory` for want of memory. After the
    /// last two the books are as before.
    pub fn span_fatal(&mut self, sp: MultiSpan, msg: &str) -> Result<FatalError, HandlerError>
        ensures reports { Reports E.text E.faults E.explains E.shows (report_at Level.Fatal None msg.now (spans_of sp)) self.old self.new result }
        ensures answer { UnlessRefused result (result ≡ as_fatal (answer_stopping self.old.flags (continues self.old) (books_of self.old) (report_at Level.Fatal None msg.now (spans_of sp)))) }
    {
        match self.emit_at(sp, msg, None, Level::Fatal) {
            Ok(()) => Ok(FatalError),
            Err(error) => Err(error),
        }
    }

    /// The same, with a code.
    ///
    /// # Errors
    ///
    /// `FatalError` where work doesn't go on after an error and one was counted, `ExplicitBug` where a
    /// new error shows a bug, `Emit` where the emitter refused it, `Memory` for want of memory. After the
    /// last two the books are as before.
    pub fn span_fatal_with_code(
        &mut self,
        sp: MultiSpan,
        msg: &str,
        code: DiagnosticId,
    ) -> Result<FatalError, HandlerError>
        ensures reports { Reports E.text E.faults E.explains E.shows (report_at Level.Fatal (Some (code_of code)) msg.now (spans_of sp)) self.old self.new result }
        ensures answer { UnlessRefused result (result ≡ as_fatal (answer_stopping self.old.flags (continues self.old) (books_of self.old) (report_at Level.Fatal (Some (code_of code)) msg.now (spans_of sp)))) }
    {
        match self.emit_at(sp, msg, Some(code), Level::Fatal) {
            Ok(()) => Ok(FatalError),
            Err(error) => Err(error),
        }
    }

    /// Reports what follows from earlier errors. It points nowhere.
    ///
    /// # Errors
    ///
    /// `ExplicitBug` where a new error shows a bug, `Emit` where the emitter refused it, `Memory` for
    /// want of memory. After the last two the books are as before.
    pub fn failure(&mut self, msg: &str) -> Result<(), HandlerError>
        ensures reports { Reports E.text E.faults E.explains E.shows (plain_report Level.FailureNote msg.now) self.old self.new result }
        ensures answer { UnlessRefused result (result ≡ answer_to self.old.flags (books_of self.old) (plain_report Level.FailureNote msg.now)) }
    {
        self.report_plain(Level::FailureNote, msg)
    }

    /// Reports a warning that points nowhere, also where warnings are off.
    ///
    /// # Errors
    ///
    /// `ExplicitBug` where a new error shows a bug, `Emit` where the emitter refused it, `Memory` for
    /// want of memory. After the last two the books are as before.
    pub fn warn(&mut self, msg: &str) -> Result<(), HandlerError>
        ensures reports { Reports E.text E.faults E.explains E.shows (plain_report Level.Warning msg.now) self.old self.new result }
        ensures answer { UnlessRefused result (result ≡ answer_to self.old.flags (books_of self.old) (plain_report Level.Warning msg.now)) }
    {
        self.report_plain(Level::Warning, msg)
    }

    /// Reports a note that points nowhere.
    ///
    /// # Errors
    ///
    /// `ExplicitBug` where a new error shows a bug, `Emit` where the emitter refused it, `Memory` for
    /// want of memory. After the last two the books are as before.
    pub fn note_without_error(&mut self, msg: &str) -> Result<(), HandlerError>
        ensures reports { Reports E.text E.faults E.explains E.shows (plain_report Level.Note msg.now) self.old self.new result }
        ensures answer { UnlessRefused result (result ≡ answer_to self.old.flags (books_of self.old) (plain_report Level.Note msg.now)) }
    {
        self.report_plain(Level::Note, msg)
    }

    // `emit` with or without a code.
    fn emit_copied(
        &mut self,
        msp: &MultiSpan,
        msg: &str,
        code: Option<DiagnosticId>,
        lvl: Level,
    ) -> Result<(), HandlerError>
        ensures reports { Reports E.text E.faults E.explains E.shows (report_at (heard self.old.flags lvl) (option_map code_of code) msg.now (spans_of msp.now)) self.old self.new result }
        ensures answer { UnlessRefused result (result ≡ (if is_off self.old.flags lvl then Ok tt else answer_stopping self.old.flags (continues self.old) (books_of self.old) (report_at lvl (option_map code_of code) msg.now (spans_of msp.now)))) }
        ensures off { IsTrue (is_off self.old.flags lvl) → result ≡ Ok tt }
    {
        if self.is_off(lvl) {
            return Ok(());
        }
        match msp.try_clone(self.allocator()) {
            Ok(sp) => self.emit_heard(sp, msg, code, lvl),
            Err(_) => Err(HandlerError::Memory),
        }
    }

    // The same, at these spans themselves.
    fn emit_at(
        &mut self,
        sp: MultiSpan,
        msg: &str,
        code: Option<DiagnosticId>,
        lvl: Level,
    ) -> Result<(), HandlerError>
        ensures reports { Reports E.text E.faults E.explains E.shows (report_at (heard self.old.flags lvl) (option_map code_of code) msg.now (spans_of sp)) self.old self.new result }
        ensures answer { UnlessRefused result (result ≡ (if is_off self.old.flags lvl then Ok tt else answer_stopping self.old.flags (continues self.old) (books_of self.old) (report_at lvl (option_map code_of code) msg.now (spans_of sp)))) }
        ensures off { IsTrue (is_off self.old.flags lvl) → result ≡ Ok tt }
    {
        if self.is_off(lvl) {
            return Ok(());
        }
        self.emit_heard(sp, msg, code, lvl)
    }

    // The same, where it is no warning or warnings are on.
    fn emit_heard(
        &mut self,
        sp: MultiSpan,
        msg: &str,
        code: Option<DiagnosticId>,
        lvl: Level,
    ) -> Result<(), HandlerError>
        ensures reports { Reports E.text E.faults E.explains E.shows (report_at lvl (option_map code_of code) msg.now (spans_of sp)) self.old self.new result }
        ensures answer { UnlessRefused result (result ≡ answer_stopping self.old.flags (continues self.old) (books_of self.old) (report_at lvl (option_map code_of code) msg.now (spans_of sp))) }
    {
        match self.report_at(lvl, code, msg, sp) {
            Ok(()) => self.stop_if_asked(),
            Err(error) => Err(error),
        }
    }

    // Whether it is a warning, and warnings are off.
    fn is_off(&self, lvl: Level) -> bool
        ensures { result ≡ is_off self.now.flags lvl }
    {
        lvl == Level::Warning && !self.flags.can_emit_warnings
    }

    // `FatalError` where work doesn't go on after an error, and there was one.
    fn stop_if_asked(&self) -> Result<(), HandlerError>
        ensures { result ≡ stop_after (continues self.now) (books_of self.now).count (Ok tt) }
    {
        if !self.continue_after_error && self.has_errors() {
            return Err(HandlerError::FatalError);
        }
        Ok(())
    }
}
