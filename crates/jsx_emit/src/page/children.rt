//! The notes of a report.

ghost use Rattle.std.specs.Prelude.{◌≡◌, None, map, IfOk, string_bytes};
ghost use Rattle.std.specs.Option.{option_map};
ghost use Rattle.jsx_base.specs.MultiSpan.{spans_of};
ghost use Rattle.jsx_diag.specs.Data.{child_of};
ghost use Rattle.jsx_emit.specs.Layout.{has_no_span};
ghost use Rattle.jsx_emit.specs.Parts.{EndedNote, NoteOver};
ghost use Rattle.jsx_emit.specs.Shows.{Each, note_spans};

use crate::page::Look;
use crate::page::long::without_end;
use crate::page::notes::push_note;
use crate::page::part::part_text;
use jsx_base::{MultiSpan, SourceMapper};
use jsx_report::SubDiagnostic;
use std::alloc::{AllocError, Global};

/// The texts of notes, one after another.
pub(super) fn notes_text<M: SourceMapper>(
    alloc: Global,
    cm: Option<&M>,
    look: Look,
    width: usize,
    notes: &[SubDiagnostic],
) -> Result<String, AllocError>
    ensures { IfOk result (λ text. Each (NoteOver (record { map = None; short = look.short; ui_testing = look.ui_testing; skip_filename = look.skip_filename }) (option_map (λ cm. record { files = M.files cm.now; call_span = M.call_span cm.now; offset_line = M.offset_line cm.now }) cm.entry) width) (map child_of notes.now) (string_bytes text)) }
{
    let mut text = String::new(alloc);
    for note in notes {
        let part = child_text(alloc, cm, look, width, note)?;
        text.push_str(part.as_str())?;
    }
    Ok(text)
}

// The text of a note: behind `=` if it points nowhere, else as a report without code.
fn child_text<M: SourceMapper>(
    alloc: Global,
    map: Option<&M>,
    look: Look,
    width: usize,
    note: &SubDiagnostic,
) -> Result<String, AllocError>
    ensures { IfOk result (λ text. NoteOver (record { map = None; short = look.short; ui_testing = look.ui_testing; skip_filename = look.skip_filename }) (option_map (λ map. record { files = M.files map.now; call_span = M.call_span map.now; offset_line = M.offset_line map.now }) map.entry) width (child_of note.now) (string_bytes text)) }
{
    let text = ended_text(alloc, map, look, width, note)?;
    if note.level.is_failure_note() {
        return without_end(alloc, text.as_str());
    }
    Ok(text)
}

// The same, with LF at the end at each level.
fn ended_text<M: SourceMapper>(
    alloc: Global,
    map: Option<&M>,
    look: Look,
    width: usize,
    note: &SubDiagnostic,
) -> Result<String, AllocError>
    ensures { IfOk result (λ text. EndedNote (record { map = None; short = look.short; ui_testing = look.ui_testing; skip_filename = look.skip_filename }) (option_map (λ map. record { files = M.files map.now; call_span = M.call_span map.now; offset_line = M.offset_line map.now }) map.entry) width (child_of note.now) (string_bytes text)) }
{
    let spans = spans_shown(note);
    if has_no_span(alloc, spans)? {
        let mut text = String::new(alloc);
        push_note(&mut text, width, note.level, &note.message)?;
        return Ok(text);
    }
    part_text(
        alloc,
        map,
        look,
        width,
        (note.level, &None, &note.message),
        spans,
    )
}

// The spans that a note shows.
fn spans_shown(note: &SubDiagnostic) -> &MultiSpan
    ensures { spans_of result.now ≡ note_spans (child_of note.now) }
{
    match &note.render_span {
        Some(spans) => spans,
        None => &note.span,
    }
}

// Whether they point nowhere.
fn has_no_span(alloc: Global, spans: &MultiSpan) -> Result<bool, AllocError>
    ensures { IfOk result (λ so. so ≡ has_no_span (spans_of spans.now)) }
{
    let labels = spans.span_labels(alloc)?;
    Ok(labels.is_empty())
}
