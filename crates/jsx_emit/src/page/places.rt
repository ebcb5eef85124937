//! Places: where they are, and as text.

ghost use Rattle.std.specs.Prelude.{ℕ, ◌≡◌, ◌++◌, IfOk, OnOk, codes, decimal, string_bytes};
ghost use Rattle.std.specs.Option.{option_map};
ghost use Rattle.jsx_base.specs.FileName.{shown_name};
ghost use Rattle.jsx_base.specs.Files.{Place};
ghost use Rattle.jsx_base.specs.Locs.{loc_data};
ghost use Rattle.jsx_base.specs.MultiSpan.{spans_of};
ghost use Rattle.jsx_draw.specs.Spots.{held_in, primary_place, ends_in};
ghost use Rattle.jsx_emit.specs.Page.{spaced};
ghost use Rattle.jsx_emit.specs.Texts.{place_text};

use crate::page::header::push_spaced;
use jsx_base::{FileName, Loc, MultiSpan, SourceMapper, Span};
use std::alloc::{AllocError, Global};

/// Adds `name:line:column`, with tabs as four blanks.
pub(super) fn push_place<M: SourceMapper>(
    alloc: Global,
    text: &mut String,
    map: &M,
    place: &Loc<'_>,
) -> Result<(), AllocError>
    ensures { OnOk result (string_bytes text.new ≡ string_bytes text.old ++ spaced (place_text (M.offset_line map.now) (loc_data place.now))) }
{
    let Some(col) = place.col.0.checked_add(1) else {
        return Err(AllocError);
    };
    let line = map.doctest_offset_line(place.line);
    let shown = shown_place(alloc, &place.file.name, line, col)?;
    push_spaced(text, shown.as_str())
}

/// A name, a line and a column.
pub(super) fn shown_place(
    alloc: Global,
    name: &FileName,
    line: usize,
    col: usize,
) -> Result<String, AllocError>
    ensures { IfOk result (λ text. string_bytes text ≡ shown_name name.now ++ (codes ":" ++ (decimal line ++ (codes ":" ++ decimal col)))) }
{
    format!(in alloc; "{name}:{line}:{col}")
}
