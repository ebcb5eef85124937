//! Bugs of the program that reports, and errors that stand for one.

ghost use Rattle.std.specs.Prelude.{◌≡◌, IfOk, string_bytes};
ghost use Rattle.jsx_report.specs.Made.{unimplemented};

use crate::{Emitter, Handler, HandlerError};
use jsx_base::MultiSpan;
use jsx_diag::{FatalError, Level};
use std::alloc::{AllocError, Global};

impl<E: Emitter> Handler<E> {
    ghost use Rattle.std.specs.Prelude.{◌≡◌, None};
    ghost use Rattle.jsx_base.specs.MultiSpan.{spans_of};
    ghost use Rattle.jsx_report.specs.Made.{bug_or, plain_report, report_at, unimplemented};
    ghost use Rattle.jsx_report.specs.Handler.{UnlessRefused, refusal, Reports, bug_or_ok};

    /// Reports a bug of the program that points nowhere. Answers `ExplicitBug`, or `Emit` where the
    /// emitter refused it, or `Memory` for want of memory. After the last two the books are as before.
    pub fn bug(&mut self, msg: &str) -> HandlerError
        ensures reports { Reports E.text E.faults E.explains E.shows (plain_report Level.Bug msg.now) self.old self.new (refusal result) }
        ensures answer { UnlessRefused (refusal result) (result ≡ HandlerError.ExplicitBug) }
    {
        match self.report_plain(Level::Bug, msg) {
            Ok(()) => HandlerError::ExplicitBug,
            Err(error) => error,
        }
    }

    /// Reports a bug of the program at these spans. Answers `ExplicitBug`, or `Emit` where the
    /// emitter refused it, or `Memory` for want of memory. After the last two the books are as before.
    pub fn span_bug(&mut self, sp: MultiSpan, msg: &str) -> HandlerError
        ensures reports { Reports E.text E.faults E.explains E.shows (report_at Level.Bug None msg.now (spans_of sp)) self.old self.new (refusal result) }
        ensures answer { UnlessRefused (refusal result) (result ≡ HandlerError.ExplicitBug) }
    {
        match self.report_at(Level::Bug, None, msg, sp) {
            Ok(()) => HandlerError::ExplicitBug,
            Err(error) => error,
        }
    }

    /// Reports that something isn't there yet. Answers `ExplicitBug`, or `Emit` where the
    /// emitter refused it, or `Memory` for want of memory. After the last two the books are as before.
    pub fn unimpl(&mut self, msg: &str) -> HandlerError
        ensures reports { Reports E.text E.faults E.explains E.shows (plain_report Level.Bug (unimplemented msg.now)) self.old self.new (refusal result) }
        ensures answer { UnlessRefused (refusal result) (result ≡ HandlerError.ExplicitBug) }
    {
        match unimplemented_text(self.allocator(), msg) {
            Ok(text) => self.bug(text.as_str()),
            Err(_) => HandlerError::Memory,
        }
    }

    /// Reports at these spans that something isn't there yet. Answers `ExplicitBug`, or `Emit` where the
    /// emitter refused it, or `Memory` for want of memory. After the last two the books are as before.
    pub fn span_unimpl(&mut self, sp: MultiSpan, msg: &str) -> HandlerError
        ensures reports { Reports E.text E.faults E.explains E.shows (report_at Level.Bug None (unimplemented msg.now) (spans_of sp)) self.old self.new (refusal result) }
        ensures answer { UnlessRefused (refusal result) (result ≡ HandlerError.ExplicitBug) }
    {
        match unimplemented_text(self.allocator(), msg) {
            Ok(text) => self.span_bug(sp, text.as_str()),
            Err(_) => HandlerError::Memory,
        }
    }

    /// Reports an error that points nowhere. It is a bug where the flags say so.
    ///
    /// # Errors
    ///
    /// `ExplicitBug`, or `Emit` where the emitter refused it, or `Memory` for want of memory. After the
    /// last two the books are as before.
    pub fn err(&mut self, msg: &str) -> Result<(), HandlerError>
        ensures reports { Reports E.text E.faults E.explains E.shows (plain_report (bug_or self.old.flags Level.Error) msg.now) self.old self.new result }
        ensures answer { UnlessRefused result (result ≡ bug_or_ok self.old.flags tt) }
    {
        if self.flags.treat_err_as_bug {
            return Err(self.bug(msg));
        }
        self.report_plain(Level::Error, msg)
    }

    /// Reports a fatal error that points nowhere, and answers that no further work makes sense. It is a
    /// bug where the flags say so.
    ///
    /// # Errors
    ///
    /// `ExplicitBug`, or `Emit` where the emitter refused it, or `Memory` for want of memory. After the
    /// last two the books are as before.
    pub fn fatal(&mut self, msg: &str) -> Result<FatalError, HandlerError>
        ensures reports { Reports E.text E.faults E.explains E.shows (plain_report (bug_or self.old.flags Level.Fatal) msg.now) self.old self.new result }
        ensures answer { UnlessRefused result (result ≡ bug_or_ok self.old.flags (record {})) }
    {
        if self.flags.treat_err_as_bug {
            return Err(self.bug(msg));
        }
        match self.report_plain(Level::Fatal, msg) {
            Ok(()) => Ok(FatalError),
            Err(error) => Err(error),
        }
    }
}

// The message, behind the word for what isn't there yet.
fn unimplemented_text(alloc: Global, msg: &str) -> Result<String, AllocError>
    ensures { IfOk result (λ text. string_bytes text ≡ unimplemented msg.now) }
{
    format!(in alloc; "unimplemented {msg}")
}
