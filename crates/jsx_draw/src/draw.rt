//! What is drawn under a line.

ghost use Rattle.std.specs.Prelude.{◌≡◌, ◌+◌, ◌-◌, cond, codes, map, OnOk, IfOk, string_bytes};
ghost use Rattle.std.specs.Option.{option_map};
ghost use Rattle.jsx_draw.specs.Drawn.{across, down, draw_down, draw_edge, draw_label, draw_open, draw_side, draw_underline, drawn, frame, label_style, layer_of, line_style, row_count, under_line, underline};
ghost use Rattle.jsx_draw.specs.Spots.{label_bytes};
ghost use Rattle.jsx_draw.specs.Views.{columns_of, layer_data, placed_of};

use crate::layout::{Placed, row_count};
use crate::numbers::sum;
use crate::order::sorted;
use crate::{Annotation, AnnotationType, StyledBuffer};
use jsx_diag::Style;
use std::alloc::{AllocError, Global};

/// Where the bars of spans and the text of a line stand.
#[derive(Clone, Copy)]
pub struct Columns {
    pub bars: usize,
    pub code: usize,
}

// What is drawn of each span before the next is.
#[derive(Clone, Copy)]
enum Layer {
    /// From the bar to where a span over several lines begins or ends.
    Edges,
    /// From the line down to a label.
    Downs,
    /// The bar beside a span over several lines, in so many rows.
    Sides(usize),
    Labels,
    Underlines,
}

/// What stands under a line: in each row the bar behind the numbers, and the spans, layer by layer. It
/// takes time by the square of the number of spans, and by the cells.
pub fn under_line(
    alloc: Global,
    at: Columns,
    depths: &[usize],
    placed: &[Placed<'_>],
) -> Result<StyledBuffer, AllocError>
    ensures { IfOk result (λ buffer. buffer ≡ under_line (columns_of at) depths.now (map placed_of placed.now)) }
{
    let rows = row_count(placed)?;
    let by_length = sorted(alloc, placed)?;
    let mut buffer = frame(alloc, at.bars.saturating_sub(1), rows)?;
    draw_all(&mut buffer, at, Layer::Edges, placed)?;
    draw_all(&mut buffer, at, Layer::Downs, placed)?;
    draw_all(&mut buffer, at, Layer::Sides(rows), placed)?;
    draw_all(&mut buffer, at, Layer::Labels, placed)?;
    draw_all(&mut buffer, at, Layer::Underlines, &by_length)?;
    draw_open(&mut buffer, at.bars, rows, depths)?;
    Ok(buffer)
}

// So many rows that begin with the bar behind the numbers.
fn frame(alloc: Global, col: usize, rows: usize) -> Result<StyledBuffer, AllocError>
    ensures { IfOk result (λ buffer. buffer ≡ frame col rows) }
{
    let mut buffer = StyledBuffer::new(alloc);
    for row in 0..rows {
        buffer.puts(row, col, "| ", Style::LineNumber)?;
    }
    Ok(buffer)
}

// A layer of all spans.
fn draw_all(
    buffer: &mut StyledBuffer,
    at: Columns,
    layer: Layer,
    placed: &[Placed<'_>],
) -> Result<(), AllocError>
    ensures { OnOk result (buffer.new ≡ drawn (layer_of (layer_data layer) (columns_of at)) (map placed_of placed.now) buffer.old) }
{
    for it in placed {
        draw(buffer, at, layer, *it)?;
    }
    Ok(())
}

// A layer of a span.
fn draw(
    buffer: &mut StyledBuffer,
    at: Columns,
    layer: Layer,
    it: Placed<'_>,
) -> Result<(), AllocError>
    ensures { OnOk result (buffer.new ≡ layer_of (layer_data layer) (columns_of at) (placed_of it.entry) buffer.old) }
{
    match layer {
        Layer::Edges => draw_edge(buffer, at, it),
        Layer::Downs => draw_down(buffer, at, it),
        Layer::Sides(rows) => draw_side(buffer, at, rows, it),
        Layer::Labels => draw_label(buffer, at, it),
        Layer::Underlines => draw_underline(buffer, at, it),
    }
}

fn draw_edge(buffer: &mut StyledBuffer, at: Columns, it: Placed<'_>) -> Result<(), AllocError>
    ensures { OnOk result (buffer.new ≡ draw_edge (columns_of at) (placed_of it.entry) buffer.old) }
{
    match &it.mark.annotation_type {
        AnnotationType::Singleline => Ok(()),
        AnnotationType::Multiline(_) => Ok(()),
        AnnotationType::MultilineStart(depth) => draw_edge_from(buffer, at, *depth, it),
        AnnotationType::MultilineEnd(depth) => draw_edge_from(buffer, at, *depth, it),
        AnnotationType::MultilineLine(_) => Ok(()),
    }
}

fn draw_edge_from(
    buffer: &mut StyledBuffer,
    at: Columns,
    depth: usize,
    it: Placed<'_>,
) -> Result<(), AllocError>
    ensures { OnOk result (buffer.new ≡ across it.entry.row (at.bars + depth + 1) (at.code + it.entry.mark.now.start_col - (at.bars + depth + 1)) (95, line_style it.entry.mark.now.is_primary) buffer.old) }
{
    let from = sum(sum(at.bars, depth)?, 1)?;
    let to = sum(at.code, it.mark.start_col)?;
    across(buffer, it.row, (from, to), ('_', line_style(it.mark)))
}

fn draw_down(buffer: &mut StyledBuffer, at: Columns, it: Placed<'_>) -> Result<(), AllocError>
    ensures { OnOk result (buffer.new ≡ draw_down (columns_of at) (placed_of it.entry) buffer.old) }
{
    if it.row == 0 || !(it.mark.has_label() || it.mark.takes_space()) {
        return Ok(());
    }
    let col = sum(at.code, it.mark.start_col)?;
    down(
        buffer,
        col,
        (0, sum(it.row, 1)?),
        ('|', line_style(it.mark)),
    )
}

fn draw_side(
    buffer: &mut StyledBuffer,
    at: Columns,
    rows: usize,
    it: Placed<'_>,
) -> Result<(), AllocError>
    ensures { OnOk result (buffer.new ≡ draw_side (columns_of at) rows (placed_of it.entry) buffer.old) }
{
    match &it.mark.annotation_type {
        AnnotationType::Singleline => Ok(()),
        AnnotationType::Multiline(_) => Ok(()),
        AnnotationType::MultilineStart(depth) => down(
            buffer,
            sum(at.bars, *depth)?,
            (sum(it.row, 1)?, rows),
            ('|', line_style(it.mark)),
        ),
        AnnotationType::MultilineEnd(depth) => down(
            buffer,
            sum(at.bars, *depth)?,
            (0, sum(it.row, 1)?),
            ('|', line_style(it.mark)),
        ),
        AnnotationType::MultilineLine(_) => Ok(()),
    }
}

fn draw_label(buffer: &mut StyledBuffer, at: Columns, it: Placed<'_>) -> Result<(), AllocError>
    ensures { OnOk result (buffer.new ≡ draw_label (columns_of at) (placed_of it.entry) buffer.old) }
{
    let style = label_style(it.mark);
    if it.row == 0 {
        let col = sum(sum(at.code, it.mark.end_col)?, 1)?;
        buffer.puts(0, col, label_of(it.mark), style)
    } else {
        let col = sum(at.code, it.mark.start_col)?;
        buffer.puts(sum(it.row, 1)?, col, label_of(it.mark), style)
    }
}

// The label of a span, or nothing.
fn label_of(mark: &Annotation) -> &str
    ensures { result.now ≡ label_bytes (option_map string_bytes mark.now.label) }
{
    match &mark.label {
        Some(label) => label.as_str(),
        None => "",
    }
}

fn draw_underline(buffer: &mut StyledBuffer, at: Columns, it: Placed<'_>) -> Result<(), AllocError>
    ensures { OnOk result (buffer.new ≡ draw_underline (columns_of at) (placed_of it.entry) buffer.old) }
{
    let from = sum(at.code, it.mark.start_col)?;
    let to = sum(at.code, it.mark.end_col)?;
    across(buffer, 0, (from, to), underline(it.mark))
}

/// The bars of open spans in so many rows.
pub fn draw_open(
    buffer: &mut StyledBuffer,
    bars: usize,
    rows: usize,
    depths: &[usize],
) -> Result<(), AllocError>
    ensures { OnOk result (buffer.new ≡ drawn (draw_open bars rows) depths.now buffer.old) }
{
    for depth in depths {
        down(
            buffer,
            sum(bars, *depth)?,
            (0, rows),
            ('|', Style::UnderlinePrimary),
        )?;
    }
    Ok(())
}

/// A cell in each of some columns of a row.
pub fn across(
    buffer: &mut StyledBuffer,
    row: usize,
    cols: (usize, usize),
    cell: (char, Style),
) -> Result<(), AllocError>
    ensures { OnOk result (buffer.new ≡ across row cols.0 (cols.1 - cols.0) cell buffer.old) }
{
    for col in cols.0..cols.1 {
        buffer.putc(row, col, cell.0, cell.1)?;
    }
    Ok(())
}

// A cell in a column of each of some rows.
fn down(
    buffer: &mut StyledBuffer,
    col: usize,
    rows: (usize, usize),
    cell: (char, Style),
) -> Result<(), AllocError>
    ensures { OnOk result (buffer.new ≡ down col rows.0 (rows.1 - rows.0) cell buffer.old) }
{
    for row in rows.0..rows.1 {
        buffer.putc(row, col, cell.0, cell.1)?;
    }
    Ok(())
}

fn line_style(mark: &Annotation) -> Style
    ensures { result ≡ line_style mark.now.is_primary }
{
    if mark.is_primary {
        Style::UnderlinePrimary
    } else {
        Style::UnderlineSecondary
    }
}

fn label_style(mark: &Annotation) -> Style
    ensures { result ≡ label_style mark.now.is_primary }
{
    if mark.is_primary {
        Style::LabelPrimary
    } else {
        Style::LabelSecondary
    }
}

// The cell under a span.
fn underline(mark: &Annotation) -> (char, Style)
    ensures { result ≡ underline mark.now.is_primary }
{
    if mark.is_primary {
        ('^', Style::UnderlinePrimary)
    } else {
        ('-', Style::UnderlineSecondary)
    }
}
