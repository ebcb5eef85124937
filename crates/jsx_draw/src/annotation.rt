//! What is drawn at the lines of a file.

ghost use Rattle.std.specs.Prelude.{◌≡◌, ◌+◌, ◌-◌, ◌^◌, ◌<◌, min, map, not, IfOk, string_bytes};
ghost use Rattle.std.specs.Option.{option_map};
ghost use Rattle.jsx_draw.specs.Annotation.{mark_of, multi_of, annotation_kind, marked_line, first_mark, last_mark, side_mark, is_side, is_single, is_edge, has_text, distance};

use std::alloc::{AllocError, Global};

/// A line, and what is drawn at it.
#[derive(Debug, PartialEq, Eq, PartialOrd, Ord, Drop)]
pub struct Line {
    /// From 1.
    pub line_index: usize,
    pub annotations: Vec<Annotation>,
}

/// A span over several lines.
#[derive(Debug, PartialEq, Eq, PartialOrd, Ord, Drop)]
pub struct MultilineAnnotation {
    /// In which column of bars it is drawn, from 1.
    pub depth: usize,
    pub line_start: usize,
    pub line_end: usize,
    pub start_col: usize,
    pub end_col: usize,
    pub is_primary: bool,
    pub label: Option<String>,
}

/// What is drawn: a span on one line, or a part of a span over several.
#[derive(Debug, PartialEq, Eq, PartialOrd, Ord, Drop)]
pub enum AnnotationType {
    Singleline,
    /// All of it.
    Multiline(MultilineAnnotation),
    /// Where it begins. Each part has its depth.
    MultilineStart(usize),
    /// Where it ends.
    MultilineEnd(usize),
    /// The bar beside a line in between.
    MultilineLine(usize),
}

/// What is drawn from one column of a line to another.
#[derive(Debug, PartialEq, Eq, PartialOrd, Ord, Drop)]
pub struct Annotation {
    /// Columns are display columns, from 0.
    pub start_col: usize,
    pub end_col: usize,
    pub is_primary: bool,
    pub label: Option<String>,
    pub annotation_type: AnnotationType,
}

impl MultilineAnnotation {
    /// One column of bars further right, up to the greatest `usize`.
    pub fn increase_depth(&mut self)
        ensures { multi_of self.new ≡ record (multi_of self.old) { depth = min (self.old.depth + 1) (2 ^ 64 - 1) } }
    {
        self.depth = self.depth.saturating_add(1);
    }

    /// Its first character.
    pub fn as_start(&self) -> Annotation
        requires { self.now.start_col < 2 ^ 64 - 1 }
        ensures { mark_of result ≡ first_mark (multi_of self.now) }
    {
        Annotation {
            start_col: self.start_col,
            end_col: self.start_col + 1,
            is_primary: self.is_primary,
            label: None,
            annotation_type: AnnotationType::MultilineStart(self.depth),
        }
    }

    /// Its last character, with the label.
    ///
    /// # Errors
    ///
    /// `AllocError` for want of memory.
    pub fn as_end(&self, alloc: Global) -> Result<Annotation, AllocError>
        ensures { IfOk result (λ it. mark_of it ≡ last_mark (multi_of self.now)) }
    {
        Ok(Annotation {
            start_col: self.end_col.saturating_sub(1),
            end_col: self.end_col,
            is_primary: self.is_primary,
            label: clone_label(alloc, &self.label)?,
            annotation_type: AnnotationType::MultilineEnd(self.depth),
        })
    }

    /// The bar beside a line in between.
    pub fn as_line(&self) -> Annotation
        ensures { mark_of result ≡ side_mark (multi_of self.now) }
    {
        Annotation {
            start_col: 0,
            end_col: 0,
            is_primary: self.is_primary,
            label: None,
            annotation_type: AnnotationType::MultilineLine(self.depth),
        }
    }

    /// An equal one.
    ///
    /// # Errors
    ///
    /// `AllocError` for want of memory.
    pub fn try_clone(&self, alloc: Global) -> Result<MultilineAnnotation, AllocError>
        ensures { IfOk result (λ copy. multi_of copy ≡ multi_of self.now) }
    {
        Ok(MultilineAnnotation {
            depth: self.depth,
            line_start: self.line_start,
            line_end: self.line_end,
            start_col: self.start_col,
            end_col: self.end_col,
            is_primary: self.is_primary,
            label: clone_label(alloc, &self.label)?,
        })
    }
}

impl AnnotationType {
    /// An equal one.
    ///
    /// # Errors
    ///
    /// `AllocError` for want of memory.
    pub fn try_clone(&self, alloc: Global) -> Result<AnnotationType, AllocError>
        ensures { IfOk result (λ copy. annotation_kind copy ≡ annotation_kind self.now) }
    {
        Ok(match self {
            AnnotationType::Singleline => AnnotationType::Singleline,
            AnnotationType::Multiline(it) => AnnotationType::Multiline(it.try_clone(alloc)?),
            AnnotationType::MultilineStart(depth) => AnnotationType::MultilineStart(*depth),
            AnnotationType::MultilineEnd(depth) => AnnotationType::MultilineEnd(*depth),
            AnnotationType::MultilineLine(depth) => AnnotationType::MultilineLine(*depth),
        })
    }
}

impl Annotation {
    /// Whether it is the bar beside a line in between.
    pub fn is_line(&self) -> bool
        ensures { result ≡ is_side (mark_of self.now).kind }
    {
        matches!(&self.annotation_type, AnnotationType::MultilineLine(_))
    }

    /// Whether it is no span on one line.
    pub fn is_multiline(&self) -> bool
        ensures { result ≡ not (is_single (mark_of self.now).kind) }
    {
        !matches!(&self.annotation_type, AnnotationType::Singleline)
    }

    /// Whether it is the first or the last character of a span over several lines.
    pub fn takes_space(&self) -> bool
        ensures { result ≡ is_edge (mark_of self.now).kind }
    {
        matches!(
            &self.annotation_type,
            AnnotationType::MultilineStart(_) | AnnotationType::MultilineEnd(_)
        )
    }

    /// Whether it has a label that isn't empty.
    pub fn has_label(&self) -> bool
        ensures { result ≡ has_text (mark_of self.now).label }
    {
        match &self.label {
            Some(label) => !label.as_str().is_empty(),
            None => false,
        }
    }

    /// The distance of its columns.
    pub fn len(&self) -> usize
        ensures { result ≡ distance self.now.start_col self.now.end_col }
    {
        if self.end_col > self.start_col {
            self.end_col - self.start_col
        } else {
            self.start_col - self.end_col
        }
    }

    /// An equal one.
    ///
    /// # Errors
    ///
    /// `AllocError` for want of memory.
    pub fn try_clone(&self, alloc: Global) -> Result<Annotation, AllocError>
        ensures { IfOk result (λ copy. mark_of copy ≡ mark_of self.now) }
    {
        Ok(Annotation {
            start_col: self.start_col,
            end_col: self.end_col,
            is_primary: self.is_primary,
            label: clone_label(alloc, &self.label)?,
            annotation_type: self.annotation_type.try_clone(alloc)?,
        })
    }
}

impl Line {
    /// An equal one.
    ///
    /// # Errors
    ///
    /// `AllocError` for want of memory.
    pub fn try_clone(&self, alloc: Global) -> Result<Line, AllocError>
        ensures { IfOk result (λ copy. marked_line copy ≡ marked_line self.now) }
    {
        Ok(Line {
            line_index: self.line_index,
            annotations: clone_annotations(alloc, &self.annotations)?,
        })
    }
}

// Equal annotations.
fn clone_annotations(
    alloc: Global,
    annotations: &[Annotation],
) -> Result<Vec<Annotation>, AllocError>
    ensures { IfOk result (λ copies. map mark_of copies.items ≡ map mark_of annotations.now) }
{
    let mut copies = Vec::with_capacity(alloc, annotations.len())?;
    for annotation in annotations {
        copies.push(annotation.try_clone(alloc)?)?;
    }
    Ok(copies)
}

// An equal label.
pub(crate) fn clone_label(
    alloc: Global,
    label: &Option<String>,
) -> Result<Option<String>, AllocError>
    ensures { IfOk result (λ copy. option_map string_bytes copy ≡ option_map string_bytes label.now) }
{
    match label {
        Some(text) => Ok(Some(String::from_str(alloc, text.as_str())?)),
        None => Ok(None),
    }
}
