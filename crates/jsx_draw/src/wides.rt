//! Spans over several lines, and their columns among the bars.

ghost use Rattle.std.specs.Prelude.{◌≡◌, map, Some, IfOk, OnOk, string_bytes};
ghost use Rattle.std.specs.Option.{option_map};
ghost use Rattle.jsx_draw.specs.Drawn.{drawn_alike, first_column, moved_by, moved_by_each, moves_with, same_label, share_line, side_by_side};
ghost use Rattle.jsx_draw.specs.Spots.{greatest};
ghost use Rattle.jsx_draw.specs.Views.{spot_of, wide_of};

use crate::numbers::sum;
use crate::spots::Spot;
use std::alloc::{AllocError, Global};

/// A span over several lines, and its column among the bars, from 1.
#[derive(Clone, Copy)]
pub struct Wide<'m, 'l> {
    pub spot: Spot<'m, 'l>,
    pub depth: usize,
}

/// The spans with their columns: one that shares a line with others may stand further right. It
/// takes time by the square of their number.
pub fn wides_of<'m, 'l>(
    alloc: Global,
    spots: &[Spot<'m, 'l>],
) -> Result<Vec<Wide<'m, 'l>>, AllocError>
    ensures { IfOk result (λ wides. map wide_of wides.items ≡ side_by_side (map spot_of spots.now)) }
{
    let mut wides = first_columns(alloc, spots)?;
    move_by_each(&mut wides, spots)?;
    Ok(wides)
}

// All in the first column.
fn first_columns<'m, 'l>(
    alloc: Global,
    spots: &[Spot<'m, 'l>],
) -> Result<Vec<Wide<'m, 'l>>, AllocError>
    ensures { IfOk result (λ wides. map wide_of wides.items ≡ map (λ it. first_column (spot_of it)) spots.now) }
{
    let mut wides = Vec::with_capacity(alloc, spots.len())?;
    for spot in spots {
        wides.push(Wide {
            spot: *spot,
            depth: 1,
        })?;
    }
    Ok(wides)
}

// Moves those that share a line with each span in turn.
fn move_by_each(wides: &mut [Wide<'_, '_>], spots: &[Spot<'_, '_>]) -> Result<(), AllocError>
    ensures { OnOk result (map wide_of wides.new ≡ moved_by_each (map spot_of spots.now) (map wide_of wides.old)) }
{
    for one in spots {
        move_by(wides, *one)?;
    }
    Ok(())
}

// Moves those that share a line with a span one column to the right, up to the first that doesn't,
// or that is the span itself in the first column.
fn move_by(wides: &mut [Wide<'_, '_>], one: Spot<'_, '_>) -> Result<(), AllocError>
    ensures { OnOk result (map wide_of wides.new ≡ moved_by (spot_of one.entry) (map wide_of wides.old)) }
{
    for i in 0..wides.len() {
        let it = wides[i];
        if !moves_with(one, it) {
            return Ok(());
        }
        wides[i].depth = sum(it.depth, 1)?;
    }
    Ok(())
}

// Whether it shares a line with a span, and isn't that span in the first column.
fn moves_with(one: Spot<'_, '_>, it: Wide<'_, '_>) -> bool
    ensures { result ≡ moves_with (spot_of one.entry) (wide_of it.entry) }
{
    share_line(it.spot, one) && !(it.depth == 1 && drawn_alike(it.spot, one))
}

fn share_line(a: Spot<'_, '_>, b: Spot<'_, '_>) -> bool
    ensures { result ≡ share_line (spot_of a.entry) (spot_of b.entry) }
{
    a.first.line <= b.last.line && b.first.line <= a.last.line
}

// Whether two spans are drawn at the same lines and columns, with the same label.
fn drawn_alike(a: Spot<'_, '_>, b: Spot<'_, '_>) -> bool
    ensures { result ≡ drawn_alike (spot_of a.entry) (spot_of b.entry) }
{
    let same_first = a.first.line == b.first.line && a.first.col_display == b.first.col_display;
    let same_last = a.last.line == b.last.line && a.last.col_display == b.last.col_display;
    let same_primary = a.label.is_primary == b.label.is_primary;
    same_first && same_last && same_primary && same_label(&a.label.label, &b.label.label)
}

fn same_label(a: &Option<String>, b: &Option<String>) -> bool
    ensures { result ≡ same_label (option_map string_bytes a.now) (option_map string_bytes b.now) }
{
    match a {
        None => b.is_none(),
        Some(text) => is_text(b, text.as_str()),
    }
}

// Whether a label is this text.
fn is_text(label: &Option<String>, text: &str) -> bool
    ensures { result ≡ same_label (Some text.now) (option_map string_bytes label.now) }
{
    match label {
        None => false,
        Some(other) => text == other.as_str(),
    }
}

/// How many columns of bars there are.
pub fn depth_of(wides: &[Wide<'_, '_>]) -> usize
    ensures { result ≡ greatest (map (λ it. it.depth) wides.now) }
{
    let mut depth = 0_usize;
    for it in wides {
        depth = depth.max(it.depth);
    }
    depth
}
