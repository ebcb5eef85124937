//! The spans of a report that are in files.

ghost use Rattle.std.specs.Prelude.{◌≡◌, ◌++◌, [], ◌∷◌, cond, map, filter, not, IfOk, OnOk};
ghost use Rattle.std.specs.List.{flat_map};
ghost use Rattle.jsx_base.specs.Locs.{loc_data};
ghost use Rattle.jsx_base.specs.MultiSpan.{label_data};
ghost use Rattle.jsx_draw.specs.Spots.{by_lines, held_in, is_single, spot_in};
ghost use Rattle.jsx_draw.specs.Views.{point_in, spot_of};

use crate::order::{Ordered, sorted};
use crate::places::ends_of;
use jsx_base::{Loc, SourceFile, SourceMapper, SpanLabel};
use std::alloc::{AllocError, Global};
use std::rc::Rc;

/// A place in a file.
#[derive(Clone, Copy)]
pub struct Point {
    pub line: usize,
    pub col: usize,
    pub col_display: usize,
}

/// A span that is pointed at, in its file.
#[derive(Clone, Copy)]
pub struct Spot<'m, 'l> {
    pub file: &'m Rc<SourceFile>,
    pub first: Point,
    pub last: Point,
    pub label: &'l SpanLabel,
}

/// By their lines: one that begins earlier first, and of two that begin in one line the one that ends
/// earlier.
impl<'m, 'l> Ordered for Spot<'m, 'l> {
    ghost use Rattle.jsx_draw.specs.Spots.{is_before};
    ghost use Rattle.jsx_draw.specs.Views.{spot_of};

    ghost before = { λ a b. is_before (spot_of a) (spot_of b) };

    fn may_precede(self, other: Spot<'m, 'l>) -> bool {
        self.first.line < other.first.line
            || (self.first.line == other.first.line && self.last.line <= other.last.line)
    }
}

impl Spot<'_, '_> {
    /// Whether it lies on one line.
    pub fn is_single(self) -> bool
        ensures { result ≡ is_single (spot_of self.entry) }
    {
        self.first.line == self.last.line
    }
}

/// The spans that are in a file.
pub fn spots_of<'m, 'l, M: SourceMapper>(
    alloc: Global,
    cm: &'m M,
    labels: &'l [SpanLabel],
) -> Result<Vec<Spot<'m, 'l>>, AllocError>
    ensures { IfOk result (λ spots. map spot_of spots.items ≡ flat_map (λ it. spot_in (held_in (M.files cm.now) it.span) it) (map label_data labels.now)) }
{
    let mut spots = Vec::new(alloc);
    for label in labels {
        push_spot(&mut spots, cm, label)?;
    }
    Ok(spots)
}

// Adds a span, if it is in a file.
fn push_spot<'m, 'l, M: SourceMapper>(
    spots: &mut Vec<Spot<'m, 'l>>,
    cm: &'m M,
    label: &'l SpanLabel,
) -> Result<(), AllocError>
    ensures { OnOk result (map spot_of spots.new.items ≡ map spot_of spots.old.items ++ spot_in (held_in (M.files cm.now) label.now.span) (label_data label.now)) }
{
    let Some((first, last)) = ends_of(cm, label.span) else {
        return Ok(());
    };
    spots.push(Spot {
        file: first.file,
        first: point_at(&first),
        last: point_at(&last),
        label,
    })?;
    Ok(())
}

fn point_at(place: &Loc<'_>) -> Point
    ensures { point_in (loc_data place.now).file result ≡ loc_data place.now }
{
    Point {
        line: place.line,
        col: place.col.0,
        col_display: place.col_display,
    }
}

/// Those that lie on one line.
pub fn singles<'m, 'l>(
    alloc: Global,
    spots: &[Spot<'m, 'l>],
) -> Result<Vec<Spot<'m, 'l>>, AllocError>
    ensures { IfOk result (λ singles. map spot_of singles.items ≡ filter is_single (map spot_of spots.now)) }
{
    let mut singles = Vec::new(alloc);
    for spot in spots {
        push_if(&mut singles, *spot, spot.is_single())?;
    }
    Ok(singles)
}

/// Those over several lines, by their lines. It takes time by the square of their number.
pub fn by_lines<'m, 'l>(
    alloc: Global,
    spots: &[Spot<'m, 'l>],
) -> Result<Vec<Spot<'m, 'l>>, AllocError>
    ensures { IfOk result (λ wide. map spot_of wide.items ≡ by_lines (filter (λ spot. not (is_single spot)) (map spot_of spots.now))) }
{
    let mut wide = Vec::new(alloc);
    for spot in spots {
        push_if(&mut wide, *spot, !spot.is_single())?;
    }
    sorted(alloc, &wide)
}

fn push_if<'m, 'l>(
    spots: &mut Vec<Spot<'m, 'l>>,
    spot: Spot<'m, 'l>,
    is_wanted: bool,
) -> Result<(), AllocError>
    ensures { OnOk result (map spot_of spots.new.items ≡ map spot_of spots.old.items ++ cond is_wanted (spot_of spot.entry ∷ []) []) }
{
    if is_wanted {
        spots.push(spot)?;
    }
    Ok(())
}
