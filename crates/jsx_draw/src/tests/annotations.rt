//! What is drawn at lines.

use crate::{Annotation, AnnotationType, Line, MultilineAnnotation};
use std::alloc::{AllocError, Global};

// From the second line's column 3 to the fourth line's column 5.
fn multiline(alloc: Global) -> Result<MultilineAnnotation, AllocError> {
    Ok(MultilineAnnotation {
        depth: 1,
        line_start: 2,
        line_end: 4,
        start_col: 3,
        end_col: 5,
        is_primary: true,
        label: Some(String::from_str(alloc, "x")?),
    })
}

fn is_at(it: &Annotation, start_col: usize, end_col: usize, kind: &AnnotationType) -> bool {
    it.start_col == start_col && it.end_col == end_col && it.annotation_type == *kind
}

fn begins(it: &MultilineAnnotation) -> bool {
    if it.start_col != 3 {
        return false;
    }
    let first = it.as_start();
    is_at(&first, 3, 4, &AnnotationType::MultilineStart(2))
        && first.takes_space()
        && !first.has_label()
}

fn goes_on(it: &MultilineAnnotation) -> bool {
    let side = it.as_line();
    is_at(&side, 0, 0, &AnnotationType::MultilineLine(2)) && side.is_line() && side.is_multiline()
}

fn ends(alloc: Global, it: &MultilineAnnotation) -> Result<bool, AllocError> {
    let last = it.as_end(alloc)?;
    Ok(is_at(&last, 4, 5, &AnnotationType::MultilineEnd(2)) && last.has_label() && last.len() == 1)
}

fn has_three_parts(alloc: Global) -> Result<bool, AllocError> {
    let mut it = multiline(alloc)?;
    it.increase_depth();
    Ok(begins(&it) && goes_on(&it) && ends(alloc, &it)?)
}

fn line(alloc: Global) -> Result<Line, AllocError> {
    let whole = Annotation {
        start_col: 3,
        end_col: 1,
        is_primary: false,
        label: Some(String::new(alloc)),
        annotation_type: AnnotationType::Multiline(multiline(alloc)?),
    };
    Ok(Line {
        line_index: 2,
        annotations: vec![in alloc; whole]?,
    })
}

fn is_copied(alloc: Global) -> Result<bool, AllocError> {
    let line = line(alloc)?;
    let copy = line.try_clone(alloc)?;
    Ok(match copy.annotations.as_slice() {
        [one] => copy == line && one.len() == 2 && !one.has_label(),
        _ => false,
    })
}

fn parts_are_copied(alloc: Global, it: &MultilineAnnotation) -> Result<bool, AllocError> {
    let last = it.as_end(alloc)?;
    let copy = last.try_clone(alloc)?;
    Ok(copy == last && is_copied_kind(alloc, &last.annotation_type)?)
}

fn is_copied_kind(alloc: Global, kind: &AnnotationType) -> Result<bool, AllocError> {
    let copy = kind.try_clone(alloc)?;
    Ok(copy == *kind)
}

fn whole_is_copied(alloc: Global) -> Result<bool, AllocError> {
    let it = multiline(alloc)?;
    let copy = it.try_clone(alloc)?;
    Ok(copy == it && parts_are_copied(alloc, &it)?)
}

#[test]
fn a_span_over_several_lines_has_three_parts(rt: HostRuntime) {
    assert!(rt; has_three_parts(rt.alloc()) == Ok(true));
    assert!(rt; is_copied(rt.alloc()) == Ok(true));
    assert!(rt; whole_is_copied(rt.alloc()) == Ok(true));
}
