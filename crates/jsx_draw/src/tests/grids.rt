//! The grid.

use crate::{StyledBuffer, StyledString, across, draw_open};
use jsx_diag::Style;
use std::alloc::{AllocError, Global};

fn push_row(shown: &mut String, row: &[StyledString]) -> Result<(), AllocError> {
    for run in row {
        shown.push_str(run.text.as_str())?;
        shown.push_str("|")?;
    }
    shown.push_str("\n")
}

/// Each run with a bar behind it, and each row with LF.
pub(super) fn shown(alloc: Global, buffer: &mut StyledBuffer) -> Result<String, AllocError> {
    let mut shown = String::new(alloc);
    for row in &buffer.render()? {
        push_row(&mut shown, row)?;
    }
    Ok(shown)
}

// Whether a grid is shown like this after it was drawn on.
fn draws<F: FnOnce(&mut StyledBuffer) -> Result<(), AllocError>>(
    alloc: Global,
    draw: F,
    rows: usize,
    want: &str,
) -> bool
    requires { F.IsAlwaysCallable draw }
{
    let mut buffer = StyledBuffer::new(alloc);
    draw(&mut buffer).is_ok() && buffer.num_lines() == rows && is(shown(alloc, &mut buffer), want)
}

pub(super) fn is(made: Result<String, AllocError>, want: &str) -> bool {
    match made {
        Ok(text) => text.as_str() == want,
        Err(_) => false,
    }
}

fn pushed_by_a_character(buffer: &mut StyledBuffer) -> Result<(), AllocError> {
    buffer.puts(0, 2, "ab", Style::NoStyle)?;
    buffer.prepend(0, "\u{e9}", Style::NoStyle)
}

fn put_in_a_later_row(buffer: &mut StyledBuffer) -> Result<(), AllocError> {
    buffer.putc(2, 1, 'x', Style::NoStyle)?;
    buffer.puts(5, 5, "", Style::NoStyle)?;
    buffer.append(2, "y\t", Style::NoStyle)
}

fn styled_in_part(buffer: &mut StyledBuffer) -> Result<(), AllocError> {
    buffer.puts(0, 0, "abcd", Style::Quotation)?;
    buffer.set_style(0, 1, Style::LineNumber, false);
    buffer.set_style_range(0, 1, 9, Style::Highlight, false);
    buffer.set_style(7, 7, Style::Highlight, true);
    Ok(())
}

fn lined(buffer: &mut StyledBuffer) -> Result<(), AllocError> {
    across(buffer, 0, (1, 3), ('x', Style::NoStyle))?;
    draw_open(buffer, 1, 2, &[2])
}

#[test]
fn a_grid_pads_with_blanks(rt: HostRuntime) {
    assert!(rt; draws(rt.alloc(), pushed_by_a_character, 1, "\u{e9}  ab|\n"));
    assert!(rt; draws(rt.alloc(), put_in_a_later_row, 3, "\n\n xy    |\n"));
    assert!(rt; draws(rt.alloc(), styled_in_part, 1, "a|b|cd|\n"));
    assert!(rt; draws(rt.alloc(), lined, 2, " xx|||\n   |||\n"));
}
