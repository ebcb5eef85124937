//! A handler: it hands reports to an emitter, each once, and keeps the books.

mod bugs;
mod builders;
mod delayed;
mod ending;
mod levels;
mod report;
mod settings;

use crate::Emitter;
use indexmap::IndexSet;
use jsx_diag::{Diagnostic, DiagnosticId, HandlerFlags};
use std::alloc::Global;

/// HandsIn reports to an emitter, each once, and keeps the books.
#[derive(Drop)]
pub struct Handler<E: Emitter> {
    pub flags: HandlerFlags,
    emitter: E,
    continue_after_error: bool,
    // It stays at the greatest `usize`.
    err_count: usize,
    // The reports that were printed since the last reset.
    reports: IndexSet<Diagnostic>,
    // The codes of all reports that were printed.
    seen: IndexSet<DiagnosticId>,
    taught: IndexSet<DiagnosticId>,
    delayed: Vec<Diagnostic>,
}

impl<E: Emitter> Handler<E> {
    ghost use Rattle.std.specs.Prelude.{◌≡◌, ◌<◌, ◌↔◌, true, false, IsTrue, IfOk};
    ghost use Rattle.jsx_report.specs.Books.{no_books};
    ghost use Rattle.jsx_report.specs.Handler.{books_of, continues, emitter_of};

    /// A handler whose books are empty. Of its flags those that aren't given are false.
    pub fn with_emitter(
        alloc: Global,
        can_emit_warnings: bool,
        treat_err_as_bug: bool,
        emitter: E,
    ) -> Handler<E>
        ensures flags { result.flags ≡ record { can_emit_warnings = can_emit_warnings; treat_err_as_bug = treat_err_as_bug; dont_buffer_diagnostics = false; report_delayed_bugs = false; external_macro_backtrace = false } }
        ensures emitter { emitter_of result ≡ emitter }
        ensures books { books_of result ≡ no_books }
        ensures continues { continues result ≡ true }
    {
        Handler::with_emitter_and_flags(
            alloc,
            emitter,
            HandlerFlags {
                can_emit_warnings,
                treat_err_as_bug,
                dont_buffer_diagnostics: false,
                report_delayed_bugs: false,
                external_macro_backtrace: false,
            },
        )
    }

    /// A handler with these flags, whose books are empty.
    pub fn with_emitter_and_flags(alloc: Global, emitter: E, flags: HandlerFlags) -> Handler<E>
        ensures flags { result.flags ≡ flags }
        ensures emitter { emitter_of result ≡ emitter }
        ensures books { books_of result ≡ no_books }
        ensures continues { continues result ≡ true }
    {
        Handler {
            flags,
            emitter,
            continue_after_error: true,
            err_count: 0,
            reports: IndexSet::new(alloc),
            seen: IndexSet::new(alloc),
            taught: IndexSet::new(alloc),
            delayed: Vec::new(alloc),
        }
    }

    // Where the handler's memory comes from.
    pub(crate) fn allocator(&self) -> Global {
        *self.delayed.allocator()
    }
}
