//! Bugs that wait, in the hope that an error comes first.

use crate::reports::{made_at, push};
use crate::{Emitter, Handler, HandlerError};
use jsx_base::MultiSpan;
use jsx_diag::{Diagnostic, Level};
use std::alloc::AllocError;

impl<E: Emitter> Handler<E> {
    ghost use Rattle.std.specs.Prelude.{◌≡◌, ◌-◌, [], ◌∷◌, ◌++◌, map, length, take, None, IsTrue, IsFalse, OnOk, OnErr};
    ghost use Rattle.jsx_base.specs.MultiSpan.{spans_of};
    ghost use Rattle.jsx_diag.specs.Data.{report_of};
    ghost use Rattle.jsx_report.specs.Made.{report_at};
    ghost use Rattle.jsx_report.specs.declared.handler.Handler.{Handler};
    ghost use Rattle.jsx_report.specs.Handler.{Delays, KeepsRest, OnRefused, UnlessRefused, Reports, answer_delayed, answer_to, books_of, bug_or_ok};

    /// Enters a bug at these spans that waits. It is printed at once where the flags say so. Where they
    /// say that errors are bugs, this is `span_bug`.
    ///
    /// # Errors
    ///
    /// `ExplicitBug` where it is `span_bug`, `Emit` where the emitter refused it, `Memory` for want of
    /// memory. After the last two the books are as before.
    pub fn delay_span_bug(&mut self, sp: MultiSpan, msg: &str) -> Result<(), HandlerError>
        ensures delays { IsFalse self.old.flags.treat_err_as_bug → Delays E.text E.faults E.explains E.shows (report_at Level.Bug None msg.now (spans_of sp)) self.old self.new result }
        ensures reports { IsTrue self.old.flags.treat_err_as_bug → Reports E.text E.faults E.explains E.shows (report_at Level.Bug None msg.now (spans_of sp)) self.old self.new result }
        ensures answer { UnlessRefused result (result ≡ bug_or_ok self.old.flags tt) }
    {
        if self.flags.treat_err_as_bug {
            return Err(self.span_bug(sp, msg));
        }
        match made_at(self.allocator(), Level::Bug, None, msg, sp) {
            Ok(diagnostic) => self.delay(diagnostic),
            Err(_) => Err(HandlerError::Memory),
        }
    }

    // Enters a bug that waits, and prints it at once where the flags say so.
    pub(crate) fn delay(&mut self, diagnostic: Diagnostic) -> Result<(), HandlerError>
        ensures delays { Delays E.text E.faults E.explains E.shows (report_of diagnostic) self.old self.new result }
        ensures answer { UnlessRefused result (result ≡ answer_delayed self.old.flags (books_of self.old) (report_of diagnostic)) }
    {
        if self.flags.report_delayed_bugs {
            return self.delay_and_report(diagnostic);
        }
        match self.push_delayed(diagnostic) {
            Ok(()) => Ok(()),
            Err(_) => Err(HandlerError::Memory),
        }
    }

    // Enters a bug that waits, and prints it at once. Where that is refused, it doesn't wait.
    fn delay_and_report(&mut self, diagnostic: Diagnostic) -> Result<(), HandlerError>
        requires { IsTrue self.old.flags.report_delayed_bugs }
        ensures delays { Delays E.text E.faults E.explains E.shows (report_of diagnostic) self.old self.new result }
        ensures answer { UnlessRefused result (result ≡ answer_to self.old.flags (books_of self.old) (report_of diagnostic)) }
    {
        match self.push_copy(&diagnostic) {
            Ok(()) => self.report_waiting(diagnostic),
            Err(_) => {
                drop(diagnostic);
                Err(HandlerError::Memory)
            }
        }
    }

    // Prints a bug that was put behind the others that wait, and takes it back where that is refused.
    fn report_waiting(&mut self, diagnostic: Diagnostic) -> Result<(), HandlerError>
        ensures delays { (before : Handler E) → IsTrue before.flags.report_delayed_bugs → KeepsRest before self.old → books_of self.old ≡ record (books_of before) { delayed = (books_of before).delayed ++ report_of diagnostic ∷ [] } → Delays E.text E.faults E.explains E.shows (report_of diagnostic) before self.new result }
        ensures answer { UnlessRefused result (result ≡ answer_to self.old.flags (books_of self.old) (report_of diagnostic)) }
    {
        let answer = self.report(diagnostic);
        self.taken_back(answer)
    }

    // Puts a copy of a bug that waits behind the others.
    fn push_copy(&mut self, diagnostic: &Diagnostic) -> Result<(), AllocError>
        ensures added { OnOk result (books_of self.new ≡ record (books_of self.old) { delayed = (books_of self.old).delayed ++ report_of diagnostic.now ∷ [] }) }
        ensures kept { OnErr result (books_of self.new ≡ books_of self.old) }
        ensures rest { KeepsRest self.old self.new }
    {
        match diagnostic.try_clone(self.allocator()) {
            Ok(copy) => self.push_delayed(copy),
            Err(error) => Err(error),
        }
    }

    // HandsIn on the answer to a report. Where it was refused, the last of the bugs that wait is taken back.
    fn taken_back(&mut self, answer: Result<(), HandlerError>) -> Result<(), HandlerError>
        ensures same { result ≡ answer }
        ensures went { UnlessRefused answer (self.new ≡ self.old) }
        ensures refused { OnRefused answer (books_of self.new ≡ record (books_of self.old) { delayed = take (length (books_of self.old).delayed - 1) (books_of self.old).delayed }) }
        ensures rest { KeepsRest self.old self.new }
    {
        match answer {
            Err(HandlerError::Emit(_)) => self.pop_delayed(),
            Err(HandlerError::Memory) => self.pop_delayed(),
            Err(HandlerError::ExplicitBug) => {}
            Err(HandlerError::FatalError) => {}
            Ok(()) => {}
        }
        answer
    }

    // Lets go of the last of the bugs that wait.
    fn pop_delayed(&mut self)
        ensures only { self.new ≡ record self.old { delayed = self.new.delayed } }
        ensures left { map report_of self.new.delayed.items ≡ take (length self.old.delayed.items - 1) (map report_of self.old.delayed.items) }
    {
        drop(self.delayed.pop());
    }

    // Puts a bug that waits behind the others.
    fn push_delayed(&mut self, diagnostic: Diagnostic) -> Result<(), AllocError>
        ensures added { OnOk result (books_of self.new ≡ record (books_of self.old) { delayed = (books_of self.old).delayed ++ report_of diagnostic ∷ [] }) }
        ensures kept { OnErr result (books_of self.new ≡ books_of self.old) }
        ensures rest { KeepsRest self.old self.new }
    {
        push(&mut self.delayed, diagnostic)
    }
}
