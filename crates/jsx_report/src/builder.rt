//! A report that is being made. It has to be spent: there is no way to drop it.

// Most calls here and in `Handler` take an answer apart by `match` and not by `?`, which the proof of a
// function pays for: a call, a branch and a conversion more, each with a borrow that ends.
mod notes;
mod suggestions;

use crate::reports::push;
use crate::{Emitter, Handler, HandlerError};
use jsx_diag::{Diagnostic, DiagnosticId, Level};
use std::alloc::AllocError;
use std::ops::{Deref, DerefMut};

/// A report that is being made, and the handler that is to have it. It has to be spent by `emit`,
/// `cancel`, `buffer` or `delay_as_bug`, or by a call of the handler that takes it.
///
/// `D` is always `Diagnostic`. It is a parameter since a contract that tells what became of the
/// handler can't see beside it a field of a type that owns memory.
pub struct DiagnosticBuilder<'a, E: Emitter, D = Diagnostic> {
    pub handler: &'a mut Handler<E>,
    diagnostic: D,
    allow_suggestions: bool,
}

impl<'a, E: Emitter> DiagnosticBuilder<'a, E> {
    ghost use Rattle.std.specs.Prelude.{◌≡◌, [], ◌∷◌, ◌++◌, map, true, Ok, Err, IsTrue, IsFalse, IsOk, IfOk, OnOk, OnErr};
    ghost use Rattle.std.specs.Option.{option_map};
    ghost use Rattle.std.specs.Borrow.{sem, RestsIfErr};
    ghost use Rattle.jsx_diag.specs.Data.{code_of, report_of};
    ghost use Rattle.jsx_diag.specs.Adds.{new_report};
    ghost use Rattle.jsx_report.specs.contracts.handler.Handler.{the_row};
    ghost use Rattle.jsx_report.specs.Made.{as_bug, is_at_once, plain_report};
    ghost use Rattle.jsx_report.specs.Handler.{Delays, HandsIn, UnlessRefused, Reports, answer_delayed, answer_to, books_of};
    ghost use Rattle.jsx_report.specs.Builder.{diagnostic_of, suggests};

    /// A report of one plain message, which points nowhere.
    ///
    /// # Errors
    ///
    /// `AllocError` for want of memory.
    pub fn new(
        handler: &'a mut Handler<E>,
        level: Level,
        message: &str,
    ) -> Result<DiagnosticBuilder<'a, E>, AllocError>
        ensures same_reference { IfOk result (λ it. it.handler.ghost_name ≡ handler.entry.ghost_name) }
        ensures same_handler { IfOk result (λ it. it.handler.now ≡ handler.old) }
        ensures report { IfOk result (λ it. report_of (diagnostic_of it) ≡ plain_report level message.now) }
        ensures suggests { IfOk result (λ it. suggests it ≡ true) }
        ensures* refused { sem 𝓛 (RestsIfErr (the_row E.row) handler.entry (λ it. it.handler.ghost_name) result (λ last. last ≡ handler.old)) }
    {
        let Ok(diagnostic) = Diagnostic::new(handler.allocator(), level, message) else {
            return Err(AllocError);
        };
        Ok(DiagnosticBuilder {
            handler,
            diagnostic,
            allow_suggestions: true,
        })
    }

    /// The same, with a code.
    ///
    /// # Errors
    ///
    /// `AllocError` for want of memory.
    pub fn new_with_code(
        handler: &'a mut Handler<E>,
        level: Level,
        code: Option<DiagnosticId>,
        message: &str,
    ) -> Result<DiagnosticBuilder<'a, E>, AllocError>
        ensures same_reference { IfOk result (λ it. it.handler.ghost_name ≡ handler.entry.ghost_name) }
        ensures same_handler { IfOk result (λ it. it.handler.now ≡ handler.old) }
        ensures report { IfOk result (λ it. report_of (diagnostic_of it) ≡ new_report level (option_map code_of code) message.now) }
        ensures suggests { IfOk result (λ it. suggests it ≡ true) }
        ensures* refused { sem 𝓛 (RestsIfErr (the_row E.row) handler.entry (λ it. it.handler.ghost_name) result (λ last. last ≡ handler.old)) }
    {
        let Ok(diagnostic) = Diagnostic::new_with_code(handler.allocator(), level, code, message)
        else {
            return Err(AllocError);
        };
        Ok(DiagnosticBuilder {
            handler,
            diagnostic,
            allow_suggestions: true,
        })
    }

    /// This report. It takes no memory and answers Ok.
    ///
    /// # Errors
    ///
    /// None.
    pub fn new_diagnostic(
        handler: &'a mut Handler<E>,
        diagnostic: Diagnostic,
    ) -> Result<DiagnosticBuilder<'a, E>, AllocError>
        ensures ok { IsOk result }
        ensures same_reference { IfOk result (λ it. it.handler.ghost_name ≡ handler.entry.ghost_name) }
        ensures same_handler { IfOk result (λ it. it.handler.now ≡ handler.old) }
        ensures report { IfOk result (λ it. report_of (diagnostic_of it) ≡ report_of diagnostic) }
        ensures suggests { IfOk result (λ it. suggests it ≡ true) }
        ensures* refused { sem 𝓛 (RestsIfErr (the_row E.row) handler.entry (λ it. it.handler.ghost_name) result (λ last. last ≡ handler.old)) }
    {
        Ok(DiagnosticBuilder {
            handler,
            diagnostic,
            allow_suggestions: true,
        })
    }

    /// Says whether the calls `_with_applicability` add something. They do at first.
    pub fn allow_suggestions(&mut self, allow: bool) -> &mut Self
        ensures same_reference { result.ghost_name ≡ self.entry.ghost_name }
        ensures set { result.now ≡ record self.old { allow_suggestions = allow } }
    {
        self.allow_suggestions = allow;
        self
    }

    /// HandsIn the report to the handler: where it is news, it is printed and entered. A cancelled one is
    /// nothing.
    ///
    /// # Errors
    ///
    /// `ExplicitBug` where a new error shows a bug, `Emit` where the emitter refused it, `Memory` for
    /// want of memory. After the last two the books are as before.
    pub fn emit(self) -> Result<(), HandlerError>
        ensures reports { Reports E.text E.faults E.explains E.shows (report_of (diagnostic_of self.entry)) self.entry.handler.now self.exit.0.now result }
        ensures answer { UnlessRefused result (result ≡ answer_to self.entry.handler.now.flags (books_of self.entry.handler.now) (report_of (diagnostic_of self.entry))) }
    {
        let DiagnosticBuilder {
            handler,
            diagnostic,
            allow_suggestions: _,
        } = self;
        handler.report(diagnostic)
    }

    /// Keeps the report for later, also a cancelled one, or emits it where the flags say that reports
    /// don't wait.
    ///
    /// # Errors
    ///
    /// Those of `emit` where it is emitted, or `Memory` for want of memory. The list is then as before.
    pub fn buffer(self, buffered_diagnostics: &mut Vec<Diagnostic>) -> Result<(), HandlerError>
        ensures reports { IsTrue (is_at_once self.entry.handler.now.flags) → Reports E.text E.faults E.explains E.shows (report_of (diagnostic_of self.entry)) self.entry.handler.now self.exit.0.now result }
        ensures answer { IsTrue (is_at_once self.entry.handler.now.flags) → UnlessRefused result (result ≡ answer_to self.entry.handler.now.flags (books_of self.entry.handler.now) (report_of (diagnostic_of self.entry))) }
        ensures same_list { IsTrue (is_at_once self.entry.handler.now.flags) → buffered_diagnostics.new.items ≡ buffered_diagnostics.old.items }

        ensures added { IsFalse (is_at_once self.entry.handler.now.flags) → OnOk result (map report_of buffered_diagnostics.new.items ≡ map report_of buffered_diagnostics.old.items ++ report_of (diagnostic_of self.entry) ∷ []) }
        ensures kept { OnErr result (map report_of buffered_diagnostics.new.items ≡ map report_of buffered_diagnostics.old.items) }
        ensures wanting { IsFalse (is_at_once self.entry.handler.now.flags) → OnErr result (result ≡ Err HandlerError.Memory) }
        ensures same_handler { IsFalse (is_at_once self.entry.handler.now.flags) → self.exit.0.now ≡ self.entry.handler.now }
    {
        let DiagnosticBuilder {
            handler,
            diagnostic,
            allow_suggestions: _,
        } = self;
        if handler.flags.dont_buffer_diagnostics || handler.flags.treat_err_as_bug {
            return handler.report(diagnostic);
        }
        match push(buffered_diagnostics, diagnostic) {
            Ok(()) => Ok(()),
            Err(_) => Err(HandlerError::Memory),
        }
    }

    /// Enters the report as a bug that waits, as `delay_span_bug` does, also a cancelled one.
    ///
    /// # Errors
    ///
    /// `ExplicitBug` where it is printed at once and shows a bug, `Emit` where the emitter refused it,
    /// `Memory` for want of memory. After the last two the books are as before.
    pub fn delay_as_bug(self) -> Result<(), HandlerError>
        ensures delays { Delays E.text E.faults E.explains E.shows (as_bug (report_of (diagnostic_of self.entry))) self.entry.handler.now self.exit.0.now result }
        ensures answer { UnlessRefused result (result ≡ answer_delayed self.entry.handler.now.flags (books_of self.entry.handler.now) (as_bug (report_of (diagnostic_of self.entry)))) }
    {
        let DiagnosticBuilder {
            handler,
            mut diagnostic,
            allow_suggestions: _,
        } = self;
        diagnostic.level = Level::Bug;
        handler.delay(diagnostic)
    }

    // Prints the report, whether it is news or not, and enters nothing.
    pub(crate) fn print(self) -> Result<(), HandlerError>
        ensures hands { HandsIn E.text E.faults E.explains E.shows (report_of (diagnostic_of self.entry) ∷ []) (books_of self.entry.handler.now) self.entry.handler.now self.exit.0.now result }
        ensures answer { UnlessRefused result (result ≡ Ok tt) }
    {
        let DiagnosticBuilder {
            handler,
            diagnostic,
            allow_suggestions: _,
        } = self;
        let answer = handler.print(&diagnostic);
        drop(diagnostic);
        answer
    }

    /// Lets the report go. Nothing is printed.
    pub fn cancel(self)
        ensures { self.exit.0.now ≡ self.entry.handler.now }
    {
        let DiagnosticBuilder {
            handler: _,
            diagnostic,
            allow_suggestions: _,
        } = self;
        drop(diagnostic);
    }
}

impl<E: Emitter> Deref for DiagnosticBuilder<'_, E> {
    ghost use Rattle.std.specs.Prelude.{◌≡◌};
    ghost use Rattle.jsx_report.specs.Builder.{diagnostic_of};

    type Target = Diagnostic;

    ghost deref_gives = { λ it diagnostic. diagnostic ≡ diagnostic_of it };

    fn deref(&self) -> &Diagnostic {
        &self.diagnostic
    }
}

impl<E: Emitter> DerefMut for DiagnosticBuilder<'_, E> {
    ghost use Rattle.std.specs.Prelude.{◌≡◌, []};
    ghost use Rattle.std.specs.Borrow.{sem, Lends};
    ghost use Rattle.jsx_diag.specs.contracts.diagnostic.Diagnostic as diagnostic;
    ghost use Rattle.jsx_report.specs.contracts.builder.DiagnosticBuilder.{the_row};
    ghost use Rattle.jsx_report.specs.Builder.{diagnostic_of, with_diagnostic};
    ghost use mir.Syntax.{named};

    ghost deref_mut_gives = { λ it diagnostic. diagnostic ≡ diagnostic_of it };

    fn deref_mut(&mut self) -> &mut Diagnostic
        ensures* writes_back { sem 𝓛 (Lends (the_row (record { mir = named 1; lft = [] }) E.row diagnostic.the_row) diagnostic.the_row self.entry result (with_diagnostic self.old)) }
        ensures shows { result.now ≡ diagnostic_of self.old }
    {
        &mut self.diagnostic
    }
}
