//! Long pages.

ghost use Rattle.std.specs.Prelude.{◌≡◌, ◌++◌, None, map, cond, codes, IfOk, OnOk, string_bytes};
ghost use Rattle.std.specs.Option.{option_map};
ghost use Rattle.jsx_diag.specs.Data.{Text, child_of, report_of};
ghost use Rattle.jsx_emit.specs.Parts.{BeginsWith, IsCut, LongOver, OwnOver, StartsWith};
ghost use Rattle.jsx_emit.specs.Shows.{Headed, before_notes};

use crate::page::Look;
use crate::page::children::notes_text;
use crate::page::numbers::number_width;
use crate::page::part::part_text;
use crate::page::rows::push_blanks;
use crate::page::suggestions::suggestions_text;
use jsx_base::SourceMapper;
use jsx_report::{Diagnostic, SubDiagnostic};
use std::alloc::{AllocError, Global};

/// The report's own part, its notes and its suggestions.
pub(super) fn long_text<M: SourceMapper>(
    alloc: Global,
    cm: Option<&M>,
    look: Look,
    report: &Diagnostic,
) -> Result<String, AllocError>
    ensures { IfOk result (λ text. LongOver (record { map = None; short = look.short; ui_testing = look.ui_testing; skip_filename = look.skip_filename }) (option_map (λ cm. record { files = M.files cm.now; call_span = M.call_span cm.now; offset_line = M.offset_line cm.now }) cm.entry) (report_of report.now) (string_bytes text)) }
{
    let width = number_width(alloc, cm, look, report)?;
    let mut text = own_text(alloc, cm, look, width, report)?;
    let notes = notes_text(alloc, cm, look, width, &report.children)?;
    let suggestions = suggestions_text(alloc, cm, look, width, &report.suggestions)?;
    let cut = report.level.is_failure_note();
    push_separator(&mut text, width, cut, &report.children)?;
    text.push_str(notes.as_str())?;
    text.push_str(suggestions.as_str())?;
    text.push('\n')?;
    Ok(text)
}

// The report's own part.
fn own_text<M: SourceMapper>(
    alloc: Global,
    cm: Option<&M>,
    look: Look,
    width: usize,
    report: &Diagnostic,
) -> Result<String, AllocError>
    ensures own { IfOk result (λ text. OwnOver (record { map = None; short = look.short; ui_testing = look.ui_testing; skip_filename = look.skip_filename }) (option_map (λ cm. record { files = M.files cm.now; call_span = M.call_span cm.now; offset_line = M.offset_line cm.now }) cm.entry) width (report_of report.now) (string_bytes text)) }
    ensures headed { IfOk result (λ text. Headed (report_of report.now) (string_bytes text)) }
{
    let header = (report.level, &report.code, report.message.as_slice());
    let text = part_text(alloc, cm, look, width, header, &report.span)?;
    if report.level.is_failure_note() {
        return without_end(alloc, text.as_str());
    }
    Ok(text)
}

/// A text without the LF at its end.
pub(super) fn without_end(alloc: Global, text: &str) -> Result<String, AllocError>
    ensures begins { IfOk result (λ it. (header : Text) → BeginsWith header text.now → StartsWith header (string_bytes it)) }
    ensures cut { IfOk result (λ it. IsCut text.now (string_bytes it)) }
{
    match text.strip_suffix('\n') {
        Some(front) => String::from_str(alloc, front),
        None => String::from_str(alloc, text),
    }
}

// Adds what stands before notes, where there are some.
fn push_separator(
    text: &mut String,
    width: usize,
    cut: bool,
    notes: &[SubDiagnostic],
) -> Result<(), AllocError>
    ensures { OnOk result (string_bytes text.new ≡ string_bytes text.old ++ before_notes cut width (map child_of notes.now)) }
{
    if notes.is_empty() {
        return Ok(());
    }
    push_blanks(text, width)?;
    text.push_str(bar(cut))
}

// A bar, with LF or not.
fn bar(cut: bool) -> &'static str
    ensures { result.now ≡ cond cut (codes " |") (codes " |\n") }
{
    if cut { " |" } else { " |\n" }
}
