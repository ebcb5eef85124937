//! The ends of a run: the bugs that waited, and how many errors there were.

ghost use Rattle.std.specs.Prelude.{◌≡◌, ◌≤◌, vec_len, drop};

mod texts;

use crate::{Emitter, Handler, HandlerError};
use jsx_diag::{Diagnostic, Level};
use std::alloc::AllocError;
use std::mem;
use texts::{count_text, error_names, push_count, push_explanations};

// Why reports weren't all handed in, and how many were before.
#[derive(Drop)]
struct Stop {
    done: usize,
    error: HandlerError,
}

impl<E: Emitter> Handler<E> {
    ghost use Rattle.std.specs.Prelude.{◌≡◌, ◌≢◌, ◌<◌, [], ◌∷◌, not, length, map, nat_eq, if◌then◌else◌, Ok, IsTrue, IsFalse, IsOk, IfOk, IfErr, OnOk};
    ghost use Rattle.jsx_diag.specs.Data.{report_of};
    ghost use Rattle.jsx_report.specs.Handler.{UnlessRefused, Reports, answer_to, books_of, bug_or_ok, emitter_of, refusal};
    ghost use Rattle.jsx_report.specs.Made.{plain_report};
    ghost use Rattle.jsx_report.specs.Emitter.{is_empty};
    ghost use Rattle.jsx_report.specs.Ending.{ClosesOrWants, HandsAll, HandsSome, IsClosing, answer_all, as_booked, count_text, first_of, waiting, without_value};
    ghost use Rattle.jsx_report.specs.Books.{booked_all};
    ghost use Rattle.jsx_report.specs.Stop.{done_of, rest_of, stop_answer};

    /// Reports the bugs that waited, if no error was counted, and answers whether there were any. None
    /// waits any longer then.
    ///
    /// # Errors
    ///
    /// Those of a report. It ends at the first: the reports before it wait no more, and are in the
    /// books; it and those behind it wait.
    pub fn finish(&mut self) -> Result<bool, HandlerError>
        ensures any { IfOk result (λ any. any ≡ not (is_empty (books_of self.old).delayed)) }
        ensures hands { (books_of self.old).count ≡ 0 → HandsAll E.text E.faults E.explains E.shows waiting (books_of self.old).delayed self.old self.new result }
        ensures answer { (books_of self.old).count ≡ 0 → UnlessRefused result (without_value result ≡ answer_all self.old.flags (books_of self.old) (books_of self.old).delayed) }
        ensures counted { (books_of self.old).count ≢ 0 → IsOk result }
        ensures kept { (books_of self.old).count ≢ 0 → self.new ≡ self.old }
    {
        let any = !self.delayed.is_empty();
        if self.err_count > 0 {
            return Ok(any);
        }
        match self.report_delayed() {
            Ok(()) => Ok(any),
            Err(error) => Err(error),
        }
    }

    /// Says how many errors were counted, if there were any, and where the errors that have a code are
    /// explained, if the emitter shows that. Where the flags say that errors are bugs, it is a bug.
    ///
    /// # Errors
    ///
    /// `ExplicitBug` where the flags say so, `Emit` where the emitter refused a report, `Memory` for want
    /// of memory. It ends at the first; the reports before it are in the books.
    pub fn print_error_count(&mut self) -> Result<(), HandlerError>
        ensures nothing { (books_of self.old).count ≡ 0 → (result ≡ Ok tt) × (self.new ≡ self.old) }
        ensures bug { (books_of self.old).count ≢ 0 → IsTrue self.old.flags.treat_err_as_bug → Reports E.text E.faults E.explains E.shows (plain_report Level.Bug (count_text (books_of self.old).count)) self.old self.new result }
        ensures closes { (books_of self.old).count ≢ 0 → IsFalse self.old.flags.treat_err_as_bug → ClosesOrWants E.text E.faults E.explains E.shows self.old self.new result }
        ensures answer { UnlessRefused result (result ≡ (if nat_eq (books_of self.old).count 0 then Ok tt else bug_or_ok self.old.flags tt)) }
    {
        if self.err_count == 0 {
            return Ok(());
        }
        if self.flags.treat_err_as_bug {
            return Err(self.count_bug());
        }
        self.close()
    }

    // Reports as a bug how many errors were counted.
    fn count_bug(&mut self) -> HandlerError
        ensures reports { Reports E.text E.faults E.explains E.shows (plain_report Level.Bug (count_text (books_of self.old).count)) self.old self.new (refusal result) }
        ensures answer { UnlessRefused (refusal result) (result ≡ HandlerError.ExplicitBug) }
    {
        match count_text(self.allocator(), self.err_count) {
            Ok(message) => self.bug(message.as_str()),
            Err(_) => HandlerError::Memory,
        }
    }

    // HandsIn in the reports that a run with errors ends with, where errors aren't bugs.
    fn close(&mut self) -> Result<(), HandlerError>
        requires { IsFalse self.old.flags.treat_err_as_bug }
        ensures closes { ClosesOrWants E.text E.faults E.explains E.shows self.old self.new result }
        ensures answer { UnlessRefused result (result ≡ Ok tt) }
    {
        match self.closing_reports() {
            Ok(reports) => self.report_closing(&reports),
            Err(_) => Err(HandlerError::Memory),
        }
    }

    // The reports that a run with errors ends with.
    fn closing_reports(&self) -> Result<Vec<Diagnostic>, AllocError>
        ensures { IfOk result (λ reports. IsClosing (books_of self.now).count (E.explains (emitter_of self.now)) (books_of self.now).seen (map report_of reports.items)) }
    {
        let alloc = self.allocator();
        let mut reports = Vec::new(alloc);
        push_count(alloc, &mut reports, self.err_count)?;
        self.push_explained(&mut reports)?;
        Ok(reports)
    }

    // Adds to the report of how many errors there were what is said of those that have a code.
    fn push_explained(&self, reports: &mut Vec<Diagnostic>) -> Result<(), AllocError>
        requires { map report_of reports.old.items ≡ plain_report Level.Fatal (count_text (books_of self.now).count) ∷ [] }
        ensures { OnOk result (IsClosing (books_of self.now).count (E.explains (emitter_of self.now)) (books_of self.now).seen (map report_of reports.new.items)) }
    {
        let alloc = self.allocator();
        let names = error_names(alloc, self.seen.as_slice())?;
        if !self.emitter.should_show_explain() {
            return Ok(());
        }
        push_explanations(alloc, reports, &names)
    }

    // HandsIn in these reports, where errors aren't bugs.
    fn report_closing(&mut self, reports: &[Diagnostic]) -> Result<(), HandlerError>
        requires { IsFalse self.old.flags.treat_err_as_bug }
        ensures hands { HandsAll E.text E.faults E.explains E.shows as_booked (map report_of reports.now) self.old self.new result }
        ensures answer { UnlessRefused result (result ≡ Ok tt) }
    {
        match self.report_each(reports) {
            Ok(()) => Ok(()),
            Err(stop) => Err(stop.error),
        }
    }

    // HandsIn in the bugs that waited. From the first on that is refused or shows a bug, they wait further.
    fn report_delayed(&mut self) -> Result<(), HandlerError>
        ensures hands { HandsAll E.text E.faults E.explains E.shows waiting (books_of self.old).delayed self.old self.new result }
        ensures answer { UnlessRefused result (result ≡ answer_all self.old.flags (books_of self.old) (books_of self.old).delayed) }
    {
        let none = Vec::new(self.allocator());
        let mut bugs = mem::replace(&mut self.delayed, none);
        match self.report_each(&bugs) {
            Ok(()) => Ok(()),
            Err(stop) => {
                drop_front(&mut bugs, stop.done);
                self.delayed = bugs;
                Err(stop.error)
            }
        }
    }

    // HandsIn in copies of these reports, up to the first that is refused or shows a bug.
    fn report_each(&mut self, reports: &[Diagnostic]) -> Result<(), Stop>
        ensures hands { HandsSome E.text E.faults E.explains E.shows (λ books. books) (done_of result (map report_of reports.now)) (rest_of result (map report_of reports.now)) self.old self.new (stop_answer result) }
        ensures answer { UnlessRefused (stop_answer result) (stop_answer result ≡ answer_all self.old.flags (books_of self.old) (map report_of reports.now)) }
        ensures fine { answer_all self.old.flags (books_of self.old) (done_of result (map report_of reports.now)) ≡ Ok tt }
        ensures answered { UnlessRefused (stop_answer result) (stop_answer result ≡ answer_all self.old.flags (booked_all self.old.flags (books_of self.old) (done_of result (map report_of reports.now))) (first_of (rest_of result (map report_of reports.now)))) }
        ensures within { IfErr result (λ stop. stop.done < length reports.now) }
    {
        let mut done = 0;
        for report in reports {
            if let Err(error) = self.report_copy(report) {
                return Err(Stop { done, error });
            }
            done += 1;
        }
        Ok(())
    }

    // HandsIn in a copy of a report.
    fn report_copy(&mut self, report: &Diagnostic) -> Result<(), HandlerError>
        ensures reports { Reports E.text E.faults E.explains E.shows (report_of report.now) self.old self.new result }
        ensures answer { UnlessRefused result (result ≡ answer_to self.old.flags (books_of self.old) (report_of report.now)) }
    {
        match report.try_clone(self.allocator()) {
            Ok(copy) => self.report(copy),
            Err(_) => Err(HandlerError::Memory),
        }
    }
}

// Lets go of the first so many reports.
fn drop_front(reports: &mut Vec<Diagnostic>, count: usize)
    requires { count ≤ vec_len reports.old }
    ensures { reports.new.items ≡ drop count reports.old.items }
{
    reports.drain(..count);
}
