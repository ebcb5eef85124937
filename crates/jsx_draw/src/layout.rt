//! Where the labels of a line's spans stand.

ghost use Rattle.std.specs.Prelude.{◌≡◌, ◌+◌, ◌<◌, ◌^◌, ◌&&◌, nat_le, nat_lt, [], ◌∷◌, ◌++◌, length, map, IfOk, OnOk};
ghost use Rattle.std.specs.List.{list_any};
ghost use Rattle.jsx_draw.specs.Annotation.{mark_of};
ghost use Rattle.jsx_draw.specs.Drawn.{begins_later, edges_meet, is_longer, labels_meet, laid_out, mark_overlaps, mark_row, marks_meet, marks_placed, row_behind, row_count, rows_for, sorted_by};
ghost use Rattle.jsx_draw.specs.Spots.{greatest, label_bytes};
ghost use Rattle.jsx_draw.specs.Views.{placed_of, seen_mark};

use crate::Annotation;
use crate::numbers::sum;
use crate::order::{Ordered, sorted};
use std::alloc::{AllocError, Global};

/// A span of a line, in the order in which labels are placed: by falling start.
#[derive(Clone, Copy)]
pub(crate) struct ByStart<'l>(&'l Annotation);

impl<'l> Ordered for ByStart<'l> {
    ghost use Rattle.jsx_draw.specs.Drawn.{begins_later, is_longer};
    ghost use Rattle.jsx_draw.specs.Views.{seen_mark, placed_of};

    ghost before = { λ a b. begins_later (seen_mark a) (seen_mark b) };

    fn may_precede(self, other: ByStart<'l>) -> bool {
        other.0.start_col <= self.0.start_col
    }
}

/// A span of a line, and the row of its label.
#[derive(Clone, Copy)]
pub struct Placed<'l> {
    pub mark: &'l Annotation,
    pub row: usize,
}

/// In the order in which underlines are drawn: by falling length, so that the shortest decides.
impl<'l> Ordered for Placed<'l> {
    ghost before = { λ a b. is_longer (placed_of a) (placed_of b) };

    fn may_precede(self, other: Placed<'l>) -> bool {
        other.mark.len() <= self.mark.len()
    }
}

/// The spans of a line by falling start, each with the row of its label. It takes time by the square
/// of their number.
pub fn lay_out<'l>(alloc: Global, marks: &'l [Annotation]) -> Result<Vec<Placed<'l>>, AllocError>
    ensures { IfOk result (λ placed. map placed_of placed.items ≡ laid_out (map mark_of marks.now)) }
{
    let falling = falling(alloc, marks)?;
    let mut placed = Vec::with_capacity(alloc, falling.len())?;
    place_all(&mut placed, &falling)?;
    Ok(placed)
}

// Adds the spans, each with the row of its label.
fn place_all<'l>(placed: &mut Vec<Placed<'l>>, falling: &[ByStart<'l>]) -> Result<(), AllocError>
    ensures { OnOk result (map placed_of placed.new.items ≡ map placed_of placed.old.items ++ marks_placed 0 (map seen_mark falling.now)) }
{
    let mut row = 0_usize;
    for i in 0..falling.len() {
        row = place(placed, falling[i].0, &falling[i + 1..], row)?;
    }
    Ok(())
}

// Adds a span before later ones, and answers the row from which the next one's label is placed.
fn place<'l>(
    placed: &mut Vec<Placed<'l>>,
    mark: &'l Annotation,
    later: &[ByStart<'_>],
    row: usize,
) -> Result<usize, AllocError>
    ensures placed { OnOk result (map placed_of placed.new.items ≡ map placed_of placed.old.items ++ record { mark = mark_of mark.now; row = mark_row row (mark_of mark.now) (map seen_mark later.now) } ∷ []) }
    ensures next { IfOk result (λ next. next ≡ row_behind (mark_row row (mark_of mark.now) (map seen_mark later.now)) (mark_of mark.now) (map seen_mark later.now)) }
{
    let row = row_of(row, mark, later);
    placed.push(Placed { mark, row })?;
    row_behind(row, mark, later)
}

// By falling start.
fn falling<'l>(alloc: Global, marks: &'l [Annotation]) -> Result<Vec<ByStart<'l>>, AllocError>
    ensures { IfOk result (λ falling. map seen_mark falling.items ≡ sorted_by begins_later (map mark_of marks.now)) }
{
    let mut seen = Vec::with_capacity(alloc, marks.len())?;
    for mark in marks {
        seen.push(ByStart(mark))?;
    }
    sorted(alloc, &seen)
}

// The row of a span's label.
fn row_of(row: usize, mark: &Annotation, later: &[ByStart<'_>]) -> usize
    ensures { result ≡ mark_row row (mark_of mark.now) (map seen_mark later.now) }
{
    if row == 0 && mark.has_label() && is_overlapped(mark, later) {
        1
    } else {
        row
    }
}

// Whether a later span overlaps one.
fn is_overlapped(mark: &Annotation, later: &[ByStart<'_>]) -> bool
    ensures { result ≡ list_any (λ other. mark_overlaps 0 other (mark_of mark.now)) (map seen_mark later.now) }
{
    for other in later {
        if overlaps(other.0, mark, 0) {
            return true;
        }
    }
    false
}

// The row of the next label.
fn row_behind(row: usize, mark: &Annotation, later: &[ByStart<'_>]) -> Result<usize, AllocError>
    ensures { IfOk result (λ next. next ≡ row_behind row (mark_of mark.now) (map seen_mark later.now)) }
{
    if meets_later(row, mark, later) {
        return sum(row, 1);
    }
    Ok(row)
}

// Whether a later span keeps the next label out of a row.
fn meets_later(row: usize, mark: &Annotation, later: &[ByStart<'_>]) -> bool
    ensures { result ≡ list_any (marks_meet row (mark_of mark.now)) (map seen_mark later.now) }
{
    for other in later {
        if meets(row, mark, other.0) {
            return true;
        }
    }
    false
}

fn meets(row: usize, mark: &Annotation, later: &Annotation) -> bool
    ensures { result ≡ marks_meet row (mark_of mark.now) (mark_of later.now) }
{
    edges_meet(mark, later) || labels_meet(row, mark, later)
}

// Whether one is where a span over several lines begins or ends, and the other is too, or has a label.
fn edges_meet(mark: &Annotation, later: &Annotation) -> bool
    ensures { result ≡ edges_meet (mark_of mark.now) (mark_of later.now) }
{
    (mark.takes_space() && (later.takes_space() || later.has_label()))
        || (later.takes_space() && mark.has_label())
}

// Whether the label of a later span would stand in the way.
fn labels_meet(row: usize, mark: &Annotation, later: &Annotation) -> bool
    ensures { result ≡ labels_meet row (mark_of mark.now) (mark_of later.now) }
{
    later.has_label()
        && overlaps(later, mark, label_len(later) + 2)
        && (mark.has_label() || (row == 0 && later.end_col <= mark.end_col))
}

// How many bytes a label has.
fn label_len(mark: &Annotation) -> usize
    ensures len { result ≡ length (label_bytes (mark_of mark.now).label) }
    ensures bound { result < 2 ^ 63 }
{
    match &mark.label {
        Some(label) => label.len(),
        None => 0,
    }
}

// Whether one overlaps another once n columns are added to its end.
fn overlaps(one: &Annotation, other: &Annotation, n: usize) -> bool
    ensures { result ≡ mark_overlaps n (mark_of one.now) (mark_of other.now) }
{
    begins_in(one.start_col, other, 0) || begins_in(other.start_col, one, n)
}

// Whether a column is in a span once n columns are added to its end.
fn begins_in(col: usize, mark: &Annotation, n: usize) -> bool
    ensures { result ≡ (nat_le mark.now.start_col col && nat_lt col (mark.now.end_col + n)) }
{
    mark.start_col <= col && (col < mark.end_col || col - mark.end_col < n)
}

/// How many rows stand under a line.
pub(crate) fn row_count(placed: &[Placed<'_>]) -> Result<usize, AllocError>
    ensures { IfOk result (λ rows. rows ≡ row_count (map placed_of placed.now)) }
{
    let mut greatest = 0_usize;
    for it in placed {
        greatest = greatest.max(it.row);
    }
    rows_for(greatest)
}

fn rows_for(greatest: usize) -> Result<usize, AllocError>
    ensures { IfOk result (λ rows. rows ≡ rows_for greatest) }
{
    if greatest == 0 {
        return Ok(1);
    }
    sum(greatest, 2)
}
