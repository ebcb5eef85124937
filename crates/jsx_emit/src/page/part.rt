//! The part of a report or a note of its own: its header, and the lines of its spans.

ghost use Rattle.std.specs.Prelude.{◌≡◌, ◌++◌, [], ◌∷◌, None, map, IfOk, MatchOption, OnOk, codes, string_bytes};
ghost use Rattle.std.specs.List.{flat_map};
ghost use Rattle.std.specs.Option.{option_map};
ghost use Rattle.std.specs.Str.{IsUtf8, chars};
ghost use Rattle.jsx_base.specs.Locs.{loc_data};
ghost use Rattle.jsx_base.specs.MultiSpan.{spans_of};
ghost use Rattle.jsx_base.specs.SourceFile.{shared_file};
ghost use Rattle.jsx_diag.specs.Data.{code_of, piece_of};
ghost use Rattle.jsx_draw.specs.Annotation.{mark_of};
ghost use Rattle.jsx_emit.specs.Sheets.{SpanRows, file_blocks, first_col, first_place, other_file, sheet_for};
ghost use Rattle.jsx_emit.specs.Written.{bar_row};
ghost use Rattle.jsx_emit.specs.Layout.{header as header_text};
ghost use Rattle.jsx_draw.specs.Spots.{primary_first, primary_place, shown_files};
ghost use Rattle.jsx_emit.specs.Page.{message_text, place_line, rows_text};
ghost use Rattle.jsx_emit.specs.Parts.{BeginsWith, PartOver, PlaceIsText};
ghost use Rattle.jsx_emit.specs.Views.{sheet_of};
ghost use Rattle.jsx_draw.specs.Views.{shown_file, spot_of};

use crate::page::Look;
use crate::page::header::push_header;
use crate::page::lines::{Sheet, push_lines};
use crate::page::places::shown_place;
use crate::page::rows::push_blanks;
use crate::page::suggestions::push_row;
use jsx_base::{Loc, MultiSpan, SourceMapper};
use jsx_draw::{
    Annotation, At, ShownFile, Spot, by_lines, depth_of, files_of, marks_in, place_of, put_first,
    singles, spots_of, sum, wides_of,
};
use jsx_report::{DiagnosticId, Level, Message};
use std::alloc::{AllocError, Global};

/// A header, and the lines of its spans.
pub(super) fn part_text<M: SourceMapper>(
    alloc: Global,
    cm: Option<&M>,
    look: Look,
    width: usize,
    header: (Level, &Option<DiagnosticId>, &[Message]),
    spans: &MultiSpan,
) -> Result<String, AllocError>
    ensures part { IfOk result (λ text. PartOver (record { map = None; short = look.short; ui_testing = look.ui_testing; skip_filename = look.skip_filename }) (option_map (λ cm. record { files = M.files cm.now; call_span = M.call_span cm.now; offset_line = M.offset_line cm.now }) cm.entry) width header.entry.0 (option_map code_of header.entry.1.now) (message_text (map piece_of header.entry.2.now)) (spans_of spans.now) (string_bytes text)) }
    ensures headed { IfOk result (λ text. BeginsWith (header_text header.entry.0 (option_map code_of header.entry.1.now) (message_text (map piece_of header.entry.2.now))) (string_bytes text)) }
{
    let mut text = String::new(alloc);
    push_header(&mut text, header.0, header.1, header.2)?;
    text.push('\n')?;
    let Some(cm) = cm else {
        return Ok(text);
    };
    push_spans(alloc, &mut text, cm, look, width, spans)?;
    Ok(text)
}

// Adds the lines of spans, behind the place of the first primary one. Nothing if that is in no file.
fn push_spans<M: SourceMapper>(
    alloc: Global,
    text: &mut String,
    cm: &M,
    look: Look,
    width: usize,
    spans: &MultiSpan,
) -> Result<(), AllocError>
    ensures rows { OnOk result (SpanRows (record { ui_testing = look.ui_testing; skip_filename = look.skip_filename; offset_line = M.offset_line cm.now }) (M.files cm.now) width (spans_of spans.now) (string_bytes text.old) (string_bytes text.new)) }
    ensures is_text { OnOk result (PlaceIsText (record { ui_testing = look.ui_testing; skip_filename = look.skip_filename; offset_line = M.offset_line cm.now }) width (primary_place (M.files cm.now) (spans_of spans.now).primary)) }
{
    let Some(place) = place_of(cm, spans) else {
        return Ok(());
    };
    let labels = spans.span_labels(alloc)?;
    let spots = spots_of(alloc, cm, &labels)?;
    push_place_line(alloc, text, cm, look, width, &place)?;
    push_spots(alloc, text, cm, look, width, place.file.start_pos.0, &spots)
}

// Adds the files of spans. The one that begins at this place changes places with the first.
fn push_spots<M: SourceMapper>(
    alloc: Global,
    text: &mut String,
    cm: &M,
    look: Look,
    width: usize,
    start: u32,
    spots: &[Spot<'_, '_>],
) -> Result<(), AllocError>
    ensures { OnOk result (string_bytes text.new ≡ string_bytes text.old ++ rows_text (file_blocks (record { ui_testing = look.ui_testing; skip_filename = look.skip_filename; offset_line = M.offset_line cm.now }) (sheet_for (record { ui_testing = look.ui_testing; skip_filename = look.skip_filename; offset_line = M.offset_line cm.now }) width (map spot_of spots.now)) (primary_first start (shown_files (map spot_of spots.now))))) }
{
    let narrow = singles(alloc, spots)?;
    let lines = by_lines(alloc, spots)?;
    let wides = wides_of(alloc, &lines)?;
    let mut files = files_of(alloc, &narrow, &lines)?;
    put_first(&mut files, start);
    let sheet = Sheet {
        look,
        width,
        depth: depth_of(&wides),
        singles: &narrow,
        wides: &wides,
    };
    push_files(alloc, text, cm, sheet, &files)
}

// Adds where the first primary span begins.
fn push_place_line<M: SourceMapper>(
    alloc: Global,
    text: &mut String,
    cm: &M,
    look: Look,
    width: usize,
    place: &Loc<'_>,
) -> Result<(), AllocError>
    ensures added { OnOk result (string_bytes text.new ≡ string_bytes text.old ++ rows_text (chars (place_line (record { ui_testing = look.ui_testing; skip_filename = look.skip_filename; offset_line = M.offset_line cm.now }) width (loc_data place.now)) ∷ [])) }
    ensures is_text { OnOk result (IsUtf8 (place_line (record { ui_testing = look.ui_testing; skip_filename = look.skip_filename; offset_line = M.offset_line cm.now }) width (loc_data place.now))) }
{
    let line = place_line(alloc, cm, look, width, place)?;
    push_row(text, "", line.as_str())
}

// `--> name:line:column`, or blanks.
fn place_line<M: SourceMapper>(
    alloc: Global,
    cm: &M,
    look: Look,
    width: usize,
    place: &Loc<'_>,
) -> Result<String, AllocError>
    ensures { IfOk result (λ line. string_bytes line ≡ place_line (record { ui_testing = look.ui_testing; skip_filename = look.skip_filename; offset_line = M.offset_line cm.now }) width (loc_data place.now)) }
{
    let mut line = String::new(alloc);
    push_blanks(&mut line, width)?;
    if look.skip_filename {
        return Ok(line);
    }
    let col = sum(place.col.0, 1)?;
    let shown = shown_place(
        alloc,
        &place.file.name,
        cm.doctest_offset_line(place.line),
        col,
    )?;
    line.push_str("--> ")?;
    line.push_str(shown.as_str())?;
    Ok(line)
}

// Adds the files. The first is that of the report's place.
fn push_files<M: SourceMapper>(
    alloc: Global,
    text: &mut String,
    cm: &M,
    sheet: Sheet<'_, '_, '_>,
    files: &[ShownFile<'_>],
) -> Result<(), AllocError>
    ensures { OnOk result (string_bytes text.new ≡ string_bytes text.old ++ rows_text (file_blocks (record { ui_testing = sheet.entry.look.ui_testing; skip_filename = sheet.entry.look.skip_filename; offset_line = M.offset_line cm.now }) (sheet_of sheet.entry) (map shown_file files.now))) }
{
    let Some((first, others)) = first_of(files) else {
        return Ok(());
    };
    push_bar_row(text, sheet.width)?;
    push_lines(alloc, text, sheet, first.file, &first.lines)?;
    push_others(alloc, text, cm, sheet, others)
}

// The first file and those behind it.
fn first_of<'s, 'm>(files: &'s [ShownFile<'m>]) -> Option<(&'s ShownFile<'m>, &'s [ShownFile<'m>])>
    ensures { MatchOption result (files.now ≡ []) (λ it. files.now ≡ it.0.now ∷ it.1.now) }
{
    files.split_first()
}

// Adds further files.
fn push_others<M: SourceMapper>(
    alloc: Global,
    text: &mut String,
    cm: &M,
    sheet: Sheet<'_, '_, '_>,
    files: &[ShownFile<'_>],
) -> Result<(), AllocError>
    ensures { OnOk result (string_bytes text.new ≡ string_bytes text.old ++ rows_text (flat_map (other_file (record { ui_testing = sheet.entry.look.ui_testing; skip_filename = sheet.entry.look.skip_filename; offset_line = M.offset_line cm.now }) (sheet_of sheet.entry)) (map shown_file files.now))) }
{
    for file in files {
        push_other_file(alloc, text, cm, sheet, file)?;
    }
    Ok(())
}

/// Adds a row that is a bar.
pub(super) fn push_bar_row(text: &mut String, width: usize) -> Result<(), AllocError>
    ensures { OnOk result (string_bytes text.new ≡ string_bytes text.old ++ rows_text (bar_row width ∷ [])) }
{
    push_blanks(text, width)?;
    push_row(text, " |", "")
}

// Adds a further file, behind the place of its first span.
fn push_other_file<M: SourceMapper>(
    alloc: Global,
    text: &mut String,
    cm: &M,
    sheet: Sheet<'_, '_, '_>,
    file: &ShownFile<'_>,
) -> Result<(), AllocError>
    ensures { OnOk result (string_bytes text.new ≡ string_bytes text.old ++ rows_text (other_file (record { ui_testing = sheet.entry.look.ui_testing; skip_filename = sheet.entry.look.skip_filename; offset_line = M.offset_line cm.now }) (sheet_of sheet.entry) (shown_file file.now))) }
{
    let Some(line) = file.lines.first() else {
        return Ok(());
    };
    push_other_place(
        alloc,
        text,
        cm,
        sheet,
        At {
            file: file.file,
            line: *line,
        },
    )?;
    push_lines(alloc, text, sheet, file.file, &file.lines)
}

// Adds `::: name:line:column` of the first span of a line, behind an empty line.
fn push_other_place<M: SourceMapper>(
    alloc: Global,
    text: &mut String,
    cm: &M,
    sheet: Sheet<'_, '_, '_>,
    at: At<'_>,
) -> Result<(), AllocError>
    ensures { OnOk result (string_bytes text.new ≡ string_bytes text.old ++ rows_text (first_place (record { ui_testing = sheet.entry.look.ui_testing; skip_filename = sheet.entry.look.skip_filename; offset_line = M.offset_line cm.now }) (sheet_of sheet.entry) (shared_file at.entry.file.now) (at.entry.line ∷ []))) }
{
    push_blanks(text, sheet.width)?;
    push_row(text, " | ", "")?;
    let marks = marks_in(alloc, sheet.singles, sheet.wides, at)?;
    let shown = shown_place(
        alloc,
        &at.file.name,
        cm.doctest_offset_line(at.line),
        first_col(&marks)?,
    )?;
    push_blanks(text, sheet.width)?;
    push_row(text, "::: ", shown.as_str())?;
    push_bar_row(text, sheet.width)
}

// The column of the first mark, from 1.
fn first_col(marks: &[Annotation]) -> Result<usize, AllocError>
    ensures { IfOk result (λ col. col ≡ first_col (map mark_of marks.now)) }
{
    match marks.first() {
        Some(mark) => sum(mark.start_col, 1),
        None => Ok(1),
    }
}
