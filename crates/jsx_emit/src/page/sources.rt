//! Lines of a source, each in a row of its own.

ghost use Rattle.std.specs.Prelude.{◌≡◌, OnOk};
ghost use Rattle.std.specs.Str.{chars};
ghost use Rattle.jsx_emit.specs.Written.{source_drawn};

use crate::page::Look;
use crate::page::numbers::number;
use jsx_draw::{StyledBuffer, sum};
use jsx_report::Style;
use std::alloc::{AllocError, Global};

/// Where a line is shown: in which row, and with which number.
#[derive(Clone, Copy)]
pub(super) struct Row {
    pub look: Look,
    pub width: usize,
    pub row: usize,
    pub line: usize,
}

/// Draws a line of a source behind its number, a bar, and what stands in the row already.
pub(super) fn draw_source(
    alloc: Global,
    buffer: &mut StyledBuffer,
    at: Row,
    source: &str,
) -> Result<(), AllocError>
    ensures { OnOk result (buffer.new ≡ source_drawn at.look.ui_testing at.width at.row at.line (chars source.now) buffer.old) }
{
    let number = number(alloc, at.look, at.line)?;
    buffer.puts(at.row, 0, number.as_str(), Style::LineNumber)?;
    buffer.putc(at.row, sum(at.width, 1)?, '|', Style::LineNumber)?;
    buffer.putc(at.row, sum(at.width, 2)?, ' ', Style::LineNumber)?;
    buffer.append(at.row, source, Style::NoStyle)
}
