//! Short pages.

ghost use Rattle.std.specs.Prelude.{◌≡◌, ◌++◌, IfOk, OnOk, string_bytes};
ghost use Rattle.std.specs.Option.{option_map};
ghost use Rattle.jsx_base.specs.MultiSpan.{spans_of};
ghost use Rattle.jsx_diag.specs.Data.{report_of};
ghost use Rattle.jsx_emit.specs.Page.{spaced};
ghost use Rattle.jsx_emit.specs.Texts.{before_header, short_page};

use crate::page::header::push_header;
use crate::page::places::push_place;
use jsx_base::{MultiSpan, SourceMapper};
use jsx_draw::place_of;
use jsx_report::Diagnostic;
use std::alloc::{AllocError, Global};

/// The header, behind its place if there is one, and LF.
pub(super) fn short_text<M: SourceMapper>(
    alloc: Global,
    map: Option<&M>,
    report: &Diagnostic,
) -> Result<String, AllocError>
    ensures { IfOk result (λ text. string_bytes text ≡ short_page (option_map (λ map. record { files = M.files map.now; call_span = M.call_span map.now; offset_line = M.offset_line map.now }) map.entry) (report_of report.now)) }
{
    let mut text = String::new(alloc);
    push_short(alloc, &mut text, map, report)?;
    Ok(text)
}

// Adds the header, behind its place if there is one, and LF.
fn push_short<M: SourceMapper>(
    alloc: Global,
    text: &mut String,
    map: Option<&M>,
    report: &Diagnostic,
) -> Result<(), AllocError>
    ensures { OnOk result (string_bytes text.new ≡ string_bytes text.old ++ short_page (option_map (λ map. record { files = M.files map.now; call_span = M.call_span map.now; offset_line = M.offset_line map.now }) map.entry) (report_of report.now)) }
{
    push_before(alloc, text, map, &report.span)?;
    push_header(text, report.level, &report.code, &report.message)?;
    text.push('\n')
}

// Adds where the first primary span begins, if it is in a file.
fn push_before<M: SourceMapper>(
    alloc: Global,
    text: &mut String,
    map: Option<&M>,
    spans: &MultiSpan,
) -> Result<(), AllocError>
    ensures { OnOk result (string_bytes text.new ≡ string_bytes text.old ++ spaced (before_header (option_map (λ map. record { files = M.files map.now; call_span = M.call_span map.now; offset_line = M.offset_line map.now }) map.entry) (spans_of spans.now).primary)) }
{
    let Some(map) = map else {
        return Ok(());
    };
    let Some(place) = place_of(map, spans) else {
        return Ok(());
    };
    push_place(alloc, text, map, &place)?;
    text.push_str(": ")
}
