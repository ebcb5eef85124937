//! Each call once, with ample memory, over an emitter in memory.

mod builders;
mod endings;
mod levels;
mod refusals;

ghost use Rattle.std.specs.Prelude.{◌≡◌, ◌++◌, codes, string_bytes, IfOk};
ghost use Rattle.std.specs.List.{flat_map};
ghost use Rattle.jsx_diag.specs.Data.{report_of};

use crate::{Diagnostic, DiagnosticId, EmitError, Emitter, Handler, HandlerError, HandlerFlags};
use jsx_base::{BytePos, MultiSpan, Span};
use std::alloc::{AllocError, Global};

/// Puts the message of each report on a line, and refuses after some.
#[derive(Drop)]
struct Lines {
    text: String,
    explains: bool,
    left: usize,
    refusal: EmitError,
    faults: u64,
}

impl Lines {
    fn new(alloc: Global) -> Lines {
        Lines {
            text: String::new(alloc),
            explains: true,
            left: 100,
            refusal: EmitError::Memory,
            faults: 0,
        }
    }
}

impl Emitter for Lines {
    ghost use Rattle.std.specs.Prelude.{◌≡◌, ◌++◌, Some, codes, string_bytes};
    ghost use Rattle.std.specs.List.{flat_map};

    ghost text = { λ it. Some (string_bytes it.text) };

    ghost faults = { λ it. it.faults };

    ghost explains = { λ it. it.explains };

    ghost shows = { λ _ _ report page. page ≡ flat_map (λ piece. piece.text) report.message ++ codes "\n" };

    fn emit(&mut self, db: &Diagnostic, _flags: &HandlerFlags) -> Result<(), EmitError> {
        if self.left == 0 {
            if self.refusal == EmitError::WriteFault {
                self.faults = self.faults.saturating_add(1);
            }
            return Err(self.refusal);
        }
        match self.push_line(db) {
            Ok(()) => {
                self.left -= 1;
                Ok(())
            }
            Err(_) => Err(EmitError::Memory),
        }
    }

    fn should_show_explain(&self) -> bool {
        self.explains
    }
}

impl Lines {
    ghost use Rattle.std.specs.Prelude.{◌≡◌, ◌++◌, codes, string_bytes, OnOk, OnErr};
    ghost use Rattle.std.specs.List.{flat_map};
    ghost use Rattle.jsx_diag.specs.Data.{report_of};

    fn push_line(&mut self, db: &Diagnostic) -> Result<(), AllocError>
        ensures pushed { OnOk result (string_bytes self.new.text ≡ string_bytes self.old.text ++ (flat_map (λ piece. piece.text) (report_of db.now).message ++ codes "\n")) }
        ensures kept { OnErr result (string_bytes self.new.text ≡ string_bytes self.old.text) }
        ensures faults { self.new.faults ≡ self.old.faults }
        ensures explains { self.new.explains ≡ self.old.explains }
        ensures left { self.new.left ≡ self.old.left }
    {
        let line = line_of(*self.text.allocator(), db)?;
        self.text.push_str(line.as_str())
    }
}

fn line_of(alloc: Global, db: &Diagnostic) -> Result<String, AllocError>
    ensures { IfOk result (λ line. string_bytes line ≡ flat_map (λ piece. piece.text) (report_of db.now).message ++ codes "\n") }
{
    let mut line = db.message(alloc)?;
    line.push_str("\n")?;
    Ok(line)
}

/// Whether the handler's emitter holds this text.
fn holds(handler: Handler<Lines>, want: &str) -> bool {
    handler.into_emitter().text.as_str() == want
}

/// A handler that prints all, over an emitter that refuses nothing.
fn loud(alloc: Global) -> Handler<Lines> {
    Handler::with_emitter(alloc, true, false, Lines::new(alloc))
}

/// A handler for which errors are bugs.
fn strict(alloc: Global) -> Handler<Lines> {
    Handler::with_emitter(alloc, true, true, Lines::new(alloc))
}

/// An error at a span.
fn span_err(
    alloc: Global,
    handler: &mut Handler<Lines>,
    message: &str,
) -> Result<(), HandlerError> {
    handler.span_err(spans(alloc), message)
}

/// A bug at a span that waits.
fn delay_bug(
    alloc: Global,
    handler: &mut Handler<Lines>,
    message: &str,
) -> Result<(), HandlerError> {
    handler.delay_span_bug(spans(alloc), message)
}

fn span() -> Span {
    Span::new(BytePos(1), BytePos(2))
}

// The next three are what they say with ample memory, which tests have. Where it is short, they are
// empty, and no error: a test that may have to let go of a report on its way out takes long to prove.

/// One span.
fn spans(alloc: Global) -> MultiSpan {
    match MultiSpan::from_span(alloc, span()) {
        Ok(spans) => spans,
        Err(_) => MultiSpan::new(alloc),
    }
}

fn text(alloc: Global, text: &str) -> String {
    match String::from_str(alloc, text) {
        Ok(text) => text,
        Err(_) => String::new(alloc),
    }
}

/// The code of an error.
fn code(alloc: Global) -> DiagnosticId {
    DiagnosticId::Error(text(alloc, "e"))
}
