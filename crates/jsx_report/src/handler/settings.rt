//! The books by themselves: what was counted, seen and taught.

use crate::known::{has_code, put_code};
use crate::{Emitter, Handler};
use jsx_diag::{DiagnosticId, FatalError};
use std::alloc::AllocError;

impl<E: Emitter> Handler<E> {
    ghost use Rattle.std.specs.Prelude.{◌≡◌, ◌≢◌, ◌<◌, ◌↔◌, [], not, IsTrue, IsErr, IfOk, OnOk, OnErr};
    ghost use Rattle.jsx_diag.specs.Data.{code_of};
    ghost use Rattle.jsx_report.specs.Books.{knows_code, with_code};
    ghost use Rattle.jsx_report.specs.Handler.{KeepsRest, books_of, continues, emitter_of};

    /// Says whether work goes on after an error. It does at first.
    pub fn set_continue_after_error(&mut self, continue_after_error: bool)
        ensures set { continues self.new ≡ continue_after_error }
        ensures same_flags { self.new.flags ≡ self.old.flags }
        ensures same_emitter { emitter_of self.new ≡ emitter_of self.old }
        ensures same_books { books_of self.new ≡ books_of self.old }
    {
        self.continue_after_error = continue_after_error;
    }

    /// How many errors were counted since the last reset. It stays at the greatest `usize`.
    pub fn err_count(&self) -> usize
        ensures { result ≡ (books_of self.now).count }
    {
        self.err_count
    }

    /// Whether an error was counted.
    pub fn has_errors(&self) -> bool
        ensures { IsTrue result ↔ (0 < (books_of self.now).count) }
    {
        self.err_count > 0
    }

    /// Forgets the reports that were printed, and counts from 0 again. It takes no memory.
    pub fn reset_err_count(&mut self)
        ensures books { books_of self.new ≡ record (books_of self.old) { reports = []; count = 0 } }
        ensures rest { KeepsRest self.old self.new }
    {
        self.reports.clear();
        self.err_count = 0;
    }

    /// Whether the code wasn't taught yet. From now on it was.
    ///
    /// # Errors
    ///
    /// `AllocError` for want of memory. Then nothing has changed.
    pub fn must_teach(&mut self, code: &DiagnosticId) -> Result<bool, AllocError>
        ensures answer { IfOk result (λ untaught. untaught ≡ not (knows_code (books_of self.old).taught (code_of code.now))) }
        ensures taught { OnOk result (books_of self.new ≡ record (books_of self.old) { taught = with_code (books_of self.old).taught (code_of code.now) }) }
        ensures kept { OnErr result (books_of self.new ≡ books_of self.old) }
        ensures rest { KeepsRest self.old self.new }
    {
        if has_code(&self.taught, code) {
            return Ok(false);
        }
        let Ok(code) = code.try_clone(self.allocator()) else {
            return Err(AllocError);
        };
        let Ok(()) = self.taught.reserve(1) else {
            return Err(AllocError);
        };
        put_code(&mut self.taught, Some(code));
        Ok(true)
    }

    /// `FatalError` where an error was counted. It takes no memory.
    ///
    /// # Errors
    ///
    /// As just said.
    pub fn abort_if_errors(&self) -> Result<(), FatalError>
        ensures { IsErr result ↔ ((books_of self.now).count ≢ 0) }
    {
        if self.err_count == 0 {
            Ok(())
        } else {
            Err(FatalError)
        }
    }

    /// The emitter.
    pub fn into_emitter(self) -> E
        ensures { result ≡ emitter_of self }
    {
        self.emitter
    }
}
