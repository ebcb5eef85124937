//! Rows of a grid as text.

ghost use Rattle.std.specs.Prelude.{◌≡◌, [], ◌∷◌, ◌++◌, map, OnOk, string_bytes};
ghost use Rattle.std.specs.Str.{encode_utf8_all};
ghost use Rattle.jsx_draw.specs.Grid.{run_of};
ghost use Rattle.jsx_emit.specs.Page.{blanks, rows_text};
ghost use Rattle.jsx_emit.specs.Texts.{run_chars};
ghost use Rattle.jsx_emit.specs.Written.{grid_chars};

use jsx_draw::{StyledBuffer, StyledString};
use std::alloc::AllocError;

/// Adds the rows of a grid, with tabs as four blanks, each with LF.
pub(super) fn push_rows(text: &mut String, buffer: &mut StyledBuffer) -> Result<(), AllocError>
    ensures added { OnOk result (string_bytes text.new ≡ string_bytes text.old ++ rows_text (grid_chars buffer.old)) }
    ensures same { buffer.new ≡ buffer.old }
{
    let rows = buffer.render()?;
    for row in &rows {
        push_row(text, row)?;
    }
    Ok(())
}

// Adds the runs of a row, and LF.
fn push_row(text: &mut String, runs: &[StyledString]) -> Result<(), AllocError>
    ensures { OnOk result (string_bytes text.new ≡ string_bytes text.old ++ (encode_utf8_all (run_chars (map run_of runs.now)) ++ 10 ∷ [])) }
{
    push_runs(text, runs)?;
    text.push('\n')
}

// Adds the texts of runs.
fn push_runs(text: &mut String, runs: &[StyledString]) -> Result<(), AllocError>
    ensures { OnOk result (string_bytes text.new ≡ string_bytes text.old ++ encode_utf8_all (run_chars (map run_of runs.now))) }
{
    for run in runs {
        text.push_str(run.text.as_str())?;
    }
    Ok(())
}

/// Adds so many blanks.
pub(super) fn push_blanks(text: &mut String, n: usize) -> Result<(), AllocError>
    ensures { OnOk result (string_bytes text.new ≡ string_bytes text.old ++ blanks n) }
{
    for _ in 0..n {
        text.push(' ')?;
    }
    Ok(())
}
