//! Marks under what a suggestion puts in.

ghost use Rattle.std.specs.Prelude.{◌≡◌, ◌+◌, ◌-◌, map, length, nat_eq, IfOk, MatchOption, OnOk};
ghost use Rattle.std.specs.List.{sum_by};
ghost use Rattle.std.specs.Str.{chars};
ghost use Rattle.jsx_base.specs.Lines.{columns_of, lines};
ghost use Rattle.jsx_diag.specs.Data.{edit_of};
ghost use Rattle.jsx_emit.specs.Marks.{columns, columns_at, lead, mark_at, marks_drawn, marks_of, part_mark};
ghost use Rattle.jsx_emit.specs.Written.{has_marks, is_sole};

use crate::page::labels::first;
use crate::page::suggestions::{high, low, split_line};
use jsx_base::{BytePos, SourceMapper, Span};
use jsx_draw::{StyledBuffer, across, sum};
use jsx_report::{Style, SubstitutionPart};
use std::alloc::AllocError;
use unicode_width::UnicodeWidthChar;

/// Whether a text has marks: it is one line, and not its sole snippet.
pub(super) fn has_marks(source: &str, parts: &[SubstitutionPart]) -> bool
    ensures { result ≡ has_marks (chars source.now) (map edit_of parts.now) }
{
    is_one_line(source) && !is_sole(source, parts)
}

fn is_one_line(source: &str) -> bool
    ensures { result ≡ nat_eq (length (lines (chars source.now))) 1 }
{
    split_line(source).is_none()
}

// Whether a text is its sole snippet, both without white space at their ends.
fn is_sole(source: &str, parts: &[SubstitutionPart]) -> bool
    ensures { result ≡ is_sole (chars source.now) (map edit_of parts.now) }
{
    match parts {
        [part] => part.snippet.as_str().trim() == source.trim(),
        _ => false,
    }
}

/// Draws a bar behind the numbers, and marks.
pub(super) fn draw_marks<M: SourceMapper>(
    buffer: &mut StyledBuffer,
    cm: &M,
    width: usize,
    row: usize,
    parts: &[SubstitutionPart],
) -> Result<(), AllocError>
    ensures { OnOk result (buffer.new ≡ marks_drawn (M.files cm.now) width row (map edit_of parts.now) buffer.old) }
{
    buffer.puts(row, sum(width, 1)?, "| ", Style::LineNumber)?;
    draw_parts(buffer, cm, row, sum(width, 3)?, parts)
}

// How many columns earlier parts put in, and how many they took away.
#[derive(Clone, Copy)]
struct Moved {
    by: usize,
    back: usize,
}

// Marks each part, moved by what earlier ones added, up to the first that is in no file.
fn draw_parts<M: SourceMapper>(
    buffer: &mut StyledBuffer,
    cm: &M,
    row: usize,
    code: usize,
    parts: &[SubstitutionPart],
) -> Result<(), AllocError>
    ensures { OnOk result (buffer.new ≡ marks_of (M.files cm.now) row code 0 0 (map edit_of parts.now) buffer.old) }
{
    let mut left = parts;
    let mut moved = Moved { by: 0, back: 0 };
    while let Some((part, more)) = left.split_first() {
        let Some(ends) = ends(cm, part.span) else {
            return Ok(());
        };
        moved = draw_part(buffer, (row, code), moved, ends, part.snippet.as_str())?;
        left = more;
    }
    Ok(())
}

// Marks a part in a row where the text begins at a column, and answers how far later ones are moved.
fn draw_part(
    buffer: &mut StyledBuffer,
    at: (usize, usize),
    moved: Moved,
    ends: (usize, usize),
    snippet: &str,
) -> Result<Moved, AllocError>
    ensures marked { OnOk result (buffer.new ≡ part_mark at.0 at.1 moved.by moved.back ends.0 snippet.now buffer.old) }
    ensures by { IfOk result (λ next. next.by ≡ moved.by + columns snippet.now + ends.0) }
    ensures back { IfOk result (λ next. next.back ≡ moved.back + ends.1) }
{
    let col = sum(at.1, moved_to(sum(ends.0, lead(snippet))?, moved)?)?;
    draw_mark(buffer, at.0, col, columns(snippet.trim())?)?;
    moved_by(moved, ends, snippet)
}

// How far later parts are moved.
fn moved_by(moved: Moved, ends: (usize, usize), snippet: &str) -> Result<Moved, AllocError>
    ensures by { IfOk result (λ next. next.by ≡ moved.by + columns snippet.now + ends.0) }
    ensures back { IfOk result (λ next. next.back ≡ moved.back + ends.1) }
{
    let by = sum(moved.by, columns(snippet)?)?;
    Ok(Moved {
        by: sum(by, ends.0)?,
        back: sum(moved.back, ends.1)?,
    })
}

// The display columns at which a span begins and ends.
fn ends<M: SourceMapper>(cm: &M, span: Span) -> Option<(usize, usize)>
    ensures { result ≡ columns_at (M.files cm.now) span }
{
    let first = cm.lookup_char_pos(BytePos(low(span)))?;
    let last = cm.lookup_char_pos(BytePos(high(span)))?;
    Some((first.col_display, last.col_display))
}

// Where a column is, once what stands before it has moved.
fn moved_to(col: usize, moved: Moved) -> Result<usize, AllocError>
    ensures { IfOk result (λ to. to ≡ col + moved.by - moved.back) }
{
    let to = sum(col, moved.by)?;
    Ok(to.saturating_sub(moved.back))
}

// How many bytes of white space a text begins with.
fn lead(snippet: &str) -> usize
    ensures { result ≡ lead snippet.now }
{
    snippet.len() - snippet.trim_start().len()
}

// Marks some cells of a row, or where there are none the cell before a place and the one at it.
fn draw_mark(
    buffer: &mut StyledBuffer,
    row: usize,
    col: usize,
    cells: usize,
) -> Result<(), AllocError>
    ensures { OnOk result (buffer.new ≡ mark_at row col cells buffer.old) }
{
    if cells == 0 {
        buffer.putc(row, col.saturating_sub(1), '-', Style::UnderlineSecondary)?;
        return buffer.putc(row, col, '-', Style::UnderlineSecondary);
    }
    let end = sum(col, cells)?;
    across(buffer, row, (col, end), ('^', Style::UnderlinePrimary))
}

// The display columns of a text.
fn columns(text: &str) -> Result<usize, AllocError>
    ensures { IfOk result (λ n. n ≡ columns text.now) }
{
    let mut rest = text;
    let mut columns = 0_usize;
    while let Some((c, behind)) = first(rest) {
        columns = sum(columns, columns_of(c))?;
        rest = behind;
    }
    Ok(columns)
}

// The display columns of a character: four of a tab.
fn columns_of(c: char) -> usize
    ensures { result ≡ columns_of c }
{
    if c == '\t' { 4 } else { c.width().unwrap_or(0) }
}
