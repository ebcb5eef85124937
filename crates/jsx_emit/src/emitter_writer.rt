//! What writes pages.

ghost use Rattle.std.specs.Prelude.{◌≡◌, false, true};
ghost use Rattle.jsx_report.specs.Books.{no_books};
ghost use Rattle.jsx_report.specs.Handler.{books_of, continues, emitter_of};
ghost use Rattle.jsx_emit.specs.Writer.{is_short, leaves_numbers, leaves_places, sink_of, source_map_of};

use crate::page::{Look, page};
use jsx_base::{Sink, SourceMapper};
use jsx_report::{Diagnostic, EmitError, Emitter, Handler, HandlerFlags};
use std::alloc::Global;

/// Writes the page of each report into a sink, in one write. It takes time by the square of the
/// report's spans, and by the lines that are shown.
#[derive(Drop)]
pub struct EmitterWriter<S: Sink, M: SourceMapper> {
    alloc: Global,
    dst: S,
    source_map: Option<M>,
    look: Look,
}

impl<S: Sink, M: SourceMapper> EmitterWriter<S, M> {
    /// With these files, if there are any, and in short form or not. `teach` changes styles alone.
    pub fn new(
        alloc: Global,
        dst: S,
        source_map: Option<M>,
        short_message: bool,
        _teach: bool,
    ) -> EmitterWriter<S, M>
        ensures sink { sink_of result ≡ dst }
        ensures source_map { source_map_of result ≡ source_map }
        ensures short { is_short result ≡ short_message }
        ensures numbers { leaves_numbers result ≡ false }
        ensures places { leaves_places result ≡ false }
    {
        EmitterWriter {
            alloc,
            dst,
            source_map,
            look: Look {
                short: short_message,
                ui_testing: false,
                skip_filename: false,
            },
        }
    }

    /// Whether the numbers of lines are left out.
    pub fn ui_testing(mut self, ui_testing: bool) -> EmitterWriter<S, M>
        ensures sink { sink_of result ≡ sink_of self }
        ensures source_map { source_map_of result ≡ source_map_of self }
        ensures short { is_short result ≡ is_short self }
        ensures numbers { leaves_numbers result ≡ ui_testing }
        ensures places { leaves_places result ≡ leaves_places self }
    {
        self.look.ui_testing = ui_testing;
        self
    }

    /// Whether places are left out.
    pub fn skip_filename(mut self, skip_filename: bool) -> EmitterWriter<S, M>
        ensures sink { sink_of result ≡ sink_of self }
        ensures source_map { source_map_of result ≡ source_map_of self }
        ensures short { is_short result ≡ is_short self }
        ensures numbers { leaves_numbers result ≡ leaves_numbers self }
        ensures places { leaves_places result ≡ skip_filename }
    {
        self.look.skip_filename = skip_filename;
        self
    }
}

impl<S: Sink, M: SourceMapper + Drop> EmitterWriter<S, M> {
    /// The sink.
    pub fn into_sink(self) -> S
        ensures { result ≡ sink_of self }
    {
        self.dst
    }
}

impl<S: Sink, M: SourceMapper> Emitter for EmitterWriter<S, M> {
    ghost use Rattle.std.specs.Prelude.{not};
    ghost use Rattle.jsx_emit.specs.Called.{ShowsAny};
    ghost use Rattle.jsx_emit.specs.Writer.{is_short, setting_of, sink_of};

    ghost text = { λ it. S.holds (sink_of it) };

    ghost faults = { λ it. S.faults (sink_of it) };

    ghost explains = { λ it. not (is_short it) };

    ghost shows = { λ it flags report page. ShowsAny (setting_of (λ map. record { files = M.files map; call_span = M.call_span map; offset_line = M.offset_line map }) it) flags.external_macro_backtrace report page };

    fn emit(&mut self, db: &Diagnostic, flags: &HandlerFlags) -> Result<(), EmitError> {
        let Ok(text) = page(self.alloc, self.source_map.as_ref(), self.look, db, flags) else {
            return Err(EmitError::Memory);
        };
        if self.dst.reserve(text.len()).is_err() {
            return Err(EmitError::Memory);
        }
        match self.dst.write(text.as_bytes()) {
            Ok(()) => Ok(()),
            Err(_) => Err(EmitError::WriteFault),
        }
    }

    fn should_show_explain(&self) -> bool {
        !self.look.short
    }
}

/// A handler with warnings on that writes the page of each report into a sink.
///
/// # Errors
///
/// As `Handler::with_emitter`.
pub fn with_emitter_writer<S: Sink, M: SourceMapper>(
    alloc: Global,
    dst: S,
    cm: Option<M>,
) -> Handler<EmitterWriter<S, M>>
    ensures flags { result.flags ≡ record { can_emit_warnings = true; treat_err_as_bug = false; dont_buffer_diagnostics = false; report_delayed_bugs = false; external_macro_backtrace = false } }
    ensures sink { sink_of (emitter_of result) ≡ dst }
    ensures source_map { source_map_of (emitter_of result) ≡ cm }
    ensures short { is_short (emitter_of result) ≡ false }
    ensures numbers { leaves_numbers (emitter_of result) ≡ false }
    ensures places { leaves_places (emitter_of result) ≡ false }
    ensures books { books_of result ≡ no_books }
    ensures continues { continues result ≡ true }
{
    Handler::with_emitter(
        alloc,
        true,
        false,
        EmitterWriter::new(alloc, dst, cm, false, true),
    )
}
