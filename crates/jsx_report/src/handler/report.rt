//! The way of every report: is it news? Then print it and enter it.

use crate::known::{has_report, put_code, put_report};
use crate::reports::made_at;
use crate::{Emitter, Handler, HandlerError};
use jsx_base::MultiSpan;
use jsx_diag::{Diagnostic, DiagnosticId, Level};
use std::alloc::AllocError;

impl<E: Emitter> Handler<E> {
    ghost use Rattle.std.specs.Prelude.{◌≡◌, ◌<◌, [], ◌∷◌, true, false, Ok, IsOk, IfOk, OnOk};
    ghost use Rattle.std.specs.Option.{option_map};
    ghost use Rattle.indexmap.specs.IndexSet.{spare};
    ghost use Rattle.jsx_diag.specs.Level.{is_error_level};
    ghost use Rattle.jsx_diag.specs.Data.{code_of, report_of};
    ghost use Rattle.jsx_base.specs.MultiSpan.{spans_of};
    ghost use Rattle.jsx_report.specs.Made.{plain_report, report_at};
    ghost use Rattle.jsx_report.specs.Books.{counted, entered, is_news, knows_report};
    ghost use Rattle.jsx_report.specs.Handler.{HandsIn, KeepsRest, UnlessRefused, Reports, answer_to, answer_entered, books_of, continues, emitter_of};

    // Prints a report and enters it, where it is news.
    pub(crate) fn report(&mut self, report: Diagnostic) -> Result<(), HandlerError>
        ensures reports { Reports E.text E.faults E.explains E.shows (report_of report) self.old self.new result }
        ensures answer { UnlessRefused result (result ≡ answer_to self.old.flags (books_of self.old) (report_of report)) }
    {
        if self.is_news(&report) {
            return self.report_news(report);
        }
        drop(report);
        Ok(())
    }

    // Whether it isn't cancelled, and no equal report was entered.
    fn is_news(&self, report: &Diagnostic) -> bool
        ensures { result ≡ is_news (books_of self.now) (report_of report.now) }
    {
        !report.cancelled() && !has_report(&self.reports, report)
    }

    // Prints a report that is news, and enters it.
    fn report_news(&mut self, report: Diagnostic) -> Result<(), HandlerError>
        requires { is_news (books_of self.old) (report_of report) ≡ true }
        ensures hands { HandsIn E.text E.faults E.explains E.shows (report_of report ∷ []) (entered self.old.flags (books_of self.old) (report_of report)) self.old self.new result }
        ensures answer { UnlessRefused result (result ≡ answer_entered self.old.flags (is_error_level report.level)) }
    {
        match self.print_new(&report) {
            Ok(code) => self.enter(report, code),
            Err(error) => {
                drop(report);
                Err(error)
            }
        }
    }

    // Prints a report that is to be entered, when there is room for it and its code, and answers a copy of
    // the code.
    fn print_new(&mut self, report: &Diagnostic) -> Result<Option<DiagnosticId>, HandlerError>
        ensures hands { HandsIn E.text E.faults E.explains E.shows (report_of report.now ∷ []) (books_of self.old) self.old self.new result }
        ensures answer { UnlessRefused result (IsOk result) }
        ensures code { IfOk result (λ code. option_map code_of code ≡ (report_of report.now).code) }
        ensures room { OnOk result (0 < spare self.new.reports) }
        ensures room_for_code { OnOk result (0 < spare self.new.seen) }
    {
        let Ok(code) = self.ready_for(report) else {
            return Err(HandlerError::Memory);
        };
        match self.print(report) {
            Ok(()) => Ok(code),
            Err(error) => Err(error),
        }
    }

    // Makes room for a report and its code, and answers a copy of the code.
    fn ready_for(&mut self, report: &Diagnostic) -> Result<Option<DiagnosticId>, AllocError>
        ensures code { IfOk result (λ code. option_map code_of code ≡ (report_of report.now).code) }
        ensures room { OnOk result (0 < spare self.new.reports) }
        ensures room_for_code { OnOk result (0 < spare self.new.seen) }
        ensures same_books { books_of self.new ≡ books_of self.old }
        ensures rest { KeepsRest self.old self.new }
    {
        match self.make_room() {
            Ok(()) => report.get_code(self.allocator()),
            Err(error) => Err(error),
        }
    }

    // Makes room for one more report, and for one more code.
    fn make_room(&mut self) -> Result<(), AllocError>
        ensures room { OnOk result (0 < spare self.new.reports) }
        ensures room_for_code { OnOk result (0 < spare self.new.seen) }
        ensures same_books { books_of self.new ≡ books_of self.old }
        ensures rest { KeepsRest self.old self.new }
    {
        match self.reports.reserve(1) {
            Ok(()) => self.seen.reserve(1),
            Err(error) => Err(error),
        }
    }

    // Enters a report that was printed, and its code. There is room for both.
    fn enter(&mut self, report: Diagnostic, code: Option<DiagnosticId>) -> Result<(), HandlerError>
        requires new { knows_report (books_of self.old).reports (report_of report) ≡ false }
        requires code { option_map code_of code ≡ (report_of report).code }
        requires room { 0 < spare self.old.reports }
        requires room_for_code { 0 < spare self.old.seen }
        ensures books { books_of self.new ≡ entered self.old.flags (books_of self.old) (report_of report) }
        ensures answer { result ≡ answer_entered self.old.flags (is_error_level report.level) }
        ensures emitter { emitter_of self.new ≡ emitter_of self.old }
        ensures flags { self.new.flags ≡ self.old.flags }
        ensures continues { continues self.new ≡ continues self.old }
    {
        let is_error = report.is_error();
        put_report(&mut self.reports, report);
        put_code(&mut self.seen, code);
        self.count(is_error)
    }

    // Counts an error, or answers that it is a bug of the program.
    fn count(&mut self, is_error: bool) -> Result<(), HandlerError>
        ensures count { self.new ≡ record self.old { err_count = counted self.old.flags is_error self.old.err_count } }
        ensures answer { result ≡ answer_entered self.old.flags is_error }
    {
        if is_error && self.flags.treat_err_as_bug {
            return Err(HandlerError::ExplicitBug);
        }
        if is_error {
            self.err_count = self.err_count.saturating_add(1);
        }
        Ok(())
    }

    // The same for a report of one plain message, which points nowhere.
    pub(super) fn report_plain(&mut self, level: Level, msg: &str) -> Result<(), HandlerError>
        ensures reports { Reports E.text E.faults E.explains E.shows (plain_report level msg.now) self.old self.new result }
        ensures answer { UnlessRefused result (result ≡ answer_to self.old.flags (books_of self.old) (plain_report level msg.now)) }
    {
        match Diagnostic::new(self.allocator(), level, msg) {
            Ok(report) => self.report(report),
            Err(_) => Err(HandlerError::Memory),
        }
    }

    // The same for a report of one plain message, which points at these spans.
    pub(super) fn report_at(
        &mut self,
        level: Level,
        code: Option<DiagnosticId>,
        msg: &str,
        span: MultiSpan,
    ) -> Result<(), HandlerError>
        ensures reports { Reports E.text E.faults E.explains E.shows (report_at level (option_map code_of code) msg.now (spans_of span)) self.old self.new result }
        ensures answer { UnlessRefused result (result ≡ answer_to self.old.flags (books_of self.old) (report_at level (option_map code_of code) msg.now (spans_of span))) }
    {
        match made_at(self.allocator(), level, code, msg, span) {
            Ok(report) => self.report(report),
            Err(_) => Err(HandlerError::Memory),
        }
    }

    // Prints a report, whether it is news or not, and enters nothing.
    pub(crate) fn print(&mut self, report: &Diagnostic) -> Result<(), HandlerError>
        ensures hands { HandsIn E.text E.faults E.explains E.shows (report_of report.now ∷ []) (books_of self.old) self.old self.new result }
        ensures answer { UnlessRefused result (result ≡ Ok tt) }
        ensures only { self.new ≡ record self.old { emitter = emitter_of self.new } }
    {
        self.emitter.emit(report, &self.flags)?;
        Ok(())
    }
}
