//! Which file, line and columns a place has.

ghost use Rattle.std.specs.Prelude.{◌≡◌, ℕ, ◌<◌, List, map, Some, None, string_bytes, codes, decimal, ◌++◌, IfOk, IfErr};
ghost use Rattle.std.specs.Option.{option_map};
ghost use Rattle.std.specs.Str.{chars};
ghost use Rattle.jsx_base.specs.declared.place.Span.{Span};
ghost use Rattle.jsx_base.specs.FileName.{name_of, shown_name};
ghost use Rattle.jsx_base.specs.Files.{File, InOrder, place_at, place_in};
ghost use Rattle.jsx_base.specs.SourceFile.{file_of, shared_file};
ghost use Rattle.jsx_base.specs.Locs.{loc_data, line_data, lines_data};
ghost use Rattle.jsx_base.specs.SpanPlaces.{low, high, span_name, snippet, merged, merged_in, shown_span, shown_places, span_lines, lines_in, lines_between, line_between};

use crate::{BytePos, CharPos, FileName, SourceFile, Span};
use std::alloc::{AllocError, Global};
use std::rc::Rc;

/// A line of a span.
#[derive(Clone, Copy, Debug, PartialEq, Eq)]
pub struct LineInfo {
    /// From 0.
    pub line_index: usize,
    /// Where the span begins in the line.
    pub start_col: CharPos,
    /// Where it ends there.
    pub end_col: CharPos,
}

/// The lines of a span.
#[derive(Debug, Drop)]
pub struct FileLines {
    pub file: Rc<SourceFile>,
    pub lines: Vec<LineInfo>,
}

/// Why the text or the lines of a span weren't given.
#[derive(Clone, Copy, Debug, PartialEq, Eq)]
pub enum LinesError {
    /// The ends of the span aren't in one file.
    OtherFile,
    /// Want of memory.
    Memory,
}

/// A place in a file.
#[derive(Debug, Drop)]
pub struct Loc<'m> {
    pub file: &'m Rc<SourceFile>,
    /// From 1.
    pub line: usize,
    /// From 0.
    pub col: CharPos,
    /// Display columns, from 0.
    pub col_display: usize,
}

// A place in a file.
pub(crate) fn loc_in(file: &Rc<SourceFile>, pos: BytePos) -> Loc<'_>
    ensures { loc_data result ≡ place_in pos.0 (shared_file file.now) }
{
    let spot = file.spot(pos);
    Loc {
        file,
        line: spot.line,
        col: CharPos(spot.col),
        col_display: spot.col_display,
    }
}

// The ends of a span, in order.
pub(crate) fn ends(sp: Span) -> (BytePos, BytePos)
    ensures low { result.0.0 ≡ low sp }
    ensures high { result.1.0 ≡ high sp }
{
    let (low, high) = (sp.lo.0.min(sp.hi.0), sp.lo.0.max(sp.hi.0));
    (BytePos(low), BytePos(high))
}

// From the first span's begin to the second one's end, where they meet in this file.
pub(crate) fn merge_in(file: &SourceFile, left: Span, right: Span) -> Option<Span>
    ensures { result ≡ merged_in left right (Some (file_of file.now)) }
{
    let (low, end) = ends(left);
    let (begin, high) = ends(right);
    if !file.has(begin.0) {
        return None;
    }
    if !file.has(high.0) {
        return None;
    }
    if file.spot(end).line != file.spot(begin).line {
        return None;
    }
    if file.begin_of(end).0 > file.begin_of(begin).0 {
        return None;
    }
    Some(Span {
        lo: file.begin_of(low),
        hi: file.begin_of(high),
    })
}

// The lines of a span in a file.
pub(crate) fn lines_in(
    alloc: Global,
    file: &Rc<SourceFile>,
    sp: Span,
) -> Result<FileLines, AllocError>
    ensures { IfOk result (λ it. lines_data it ≡ lines_in sp (shared_file file.now)) }
{
    let (low, high) = ends(sp);
    let (begin, end) = (file.spot(low), file.spot(high));
    let lines = lines_between(alloc, file, (begin.line, begin.col), (end.line, end.col))?;
    Ok(FileLines {
        file: file.clone()?,
        lines,
    })
}

// The lines from one line and column to another.
fn lines_between(
    alloc: Global,
    file: &SourceFile,
    first: (usize, usize),
    last: (usize, usize),
) -> Result<Vec<LineInfo>, AllocError>
    ensures { IfOk result (λ it. map line_data it.items ≡ lines_between (file_of file.now) first last) }
{
    let begin = first.0.saturating_sub(1);
    let mut lines = Vec::new(alloc);
    for index in begin..last.0 {
        lines.push(line_between(file, first, last, index))?;
    }
    Ok(lines)
}

// One of these lines.
fn line_between(
    file: &SourceFile,
    first: (usize, usize),
    last: (usize, usize),
    index: usize,
) -> LineInfo
    requires { index < last.0 }
    ensures { line_data result ≡ line_between (file_of file.now) first last index }
{
    let start_col = if index + 1 == first.0 { first.1 } else { 0 };
    let end_col = if index + 1 == last.0 {
        last.1
    } else {
        file.line_len(index)
    };
    LineInfo {
        line_index: index,
        start_col: CharPos(start_col),
        end_col: CharPos(end_col),
    }
}

// `name:line:col: line:col` of the ends of a span, of which each is in its file.
pub(crate) fn show_places(
    alloc: Global,
    sp: Span,
    first: &SourceFile,
    last: &SourceFile,
) -> Result<String, AllocError>
    ensures { IfOk result (λ text. string_bytes text ≡ shown_places sp (file_of first.now) (file_of last.now)) }
{
    let (low, high) = ends(sp);
    let (begin, end) = (first.spot(low), last.spot(high));
    let begin = (begin.line, begin.col + 1);
    let end = (end.line, end.col + 1);
    Ok(show_numbers(alloc, &first.name, begin, end)?)
}

// A name, and two lines with a column each.
fn show_numbers(
    alloc: Global,
    name: &FileName,
    begin: (usize, usize),
    end: (usize, usize),
) -> Result<String, AllocError>
    ensures { IfOk result (λ text. string_bytes text
        ≡ shown_name name.now ++ (codes ":" ++ (decimal begin.0 ++ (codes ":" ++ (decimal begin.1
        ++ (codes ": " ++ (decimal end.0 ++ (codes ":" ++ decimal end.1)))))))) }
{
    format!(in alloc; "{name}:{}:{}: {}:{}", begin.0, begin.1, end.0, end.1)
}

/// Files, and what is at their places.
pub trait SourceMapper {
    /// The files, by rising places.
    ghost files: { Self → List File };

    /// The span that stands for one that a macro made.
    ghost call_span: { Self → Span → Span };

    /// The line that stands for one of a text in a documentation comment.
    ghost offset_line: { Self → ℕ → ℕ };

    /// The line and the columns of a place. `None` exactly outside all files. It takes time by the
    /// logarithm of the files and of the file's lines, and by the bytes of the line.
    fn lookup_char_pos(&self, pos: BytePos) -> Option<Loc<'_>>
        ensures { option_map loc_data result ≡ place_at (files self.now) pos.0 };

    /// The name of the file in which a span begins, or `Anon` outside all files.
    ///
    /// # Errors
    ///
    /// `AllocError` for want of memory.
    fn span_to_filename(&self, alloc: Global, sp: Span) -> Result<FileName, AllocError>
        ensures { IfOk result (λ name. name_of name ≡ span_name (files self.now) sp) };

    /// `name:line:col: line:col` of the ends of a span, with columns from 1. `no-location` where an
    /// end is outside all files.
    ///
    /// # Errors
    ///
    /// `AllocError` for want of memory.
    fn span_to_string(&self, alloc: Global, sp: Span) -> Result<String, AllocError>
        ensures { IfOk result (λ text. string_bytes text ≡ shown_span (files self.now) sp) };

    /// The lines of a span, each with the columns between which it is in the span.
    ///
    /// # Errors
    ///
    /// `OtherFile` exactly where the ends of the span aren't in one file, and `Memory` for want of
    /// memory.
    fn span_to_lines(&self, alloc: Global, sp: Span) -> Result<FileLines, LinesError>
        ensures lines { IfOk result (λ it. Some (lines_data it) ≡ span_lines (files self.now) sp) }
        ensures other_file { IfErr result (λ error. error ≡ LinesError.OtherFile → span_lines (files self.now) sp ≡ None) };

    /// The text of a span.
    ///
    /// # Errors
    ///
    /// `OtherFile` exactly where the ends of the span aren't in one file, and `Memory` for want of
    /// memory.
    fn span_to_snippet(&self, alloc: Global, sp: Span) -> Result<String, LinesError>
        ensures text { IfOk result (λ text. Some (chars (string_bytes text)) ≡ snippet (files self.now) sp) }
        ensures other_file { IfErr result (λ error. error ≡ LinesError.OtherFile → snippet (files self.now) sp ≡ None) };

    /// From the first span's begin to the second one's end. `None` exactly where they aren't in one
    /// file, or the first doesn't end on the line on which the second begins, or ends after it.
    fn merge_spans(&self, sp_lhs: Span, sp_rhs: Span) -> Option<Span>
        ensures { result ≡ merged (files self.now) sp_lhs sp_rhs };

    /// The span that is shown in place of one that a macro made.
    fn call_span_if_macro(&self, sp: Span) -> Span
        ensures { result ≡ call_span self.now sp };

    /// The number of a line that is shown.
    fn doctest_offset_line(&self, line: usize) -> usize
        ensures { result ≡ offset_line self.now line };

    /// Each file begins after the end of the one before.
    ghost in_order: { (it : Self) → InOrder (files it) };
}

impl<M: SourceMapper> SourceMapper for &M {
    ghost files = { λ it. M.files it.now };

    ghost call_span = { λ it. M.call_span it.now };

    ghost offset_line = { λ it. M.offset_line it.now };

    fn lookup_char_pos(&self, pos: BytePos) -> Option<Loc<'_>> {
        (**self).lookup_char_pos(pos)
    }

    fn span_to_filename(&self, alloc: Global, sp: Span) -> Result<FileName, AllocError> {
        (**self).span_to_filename(alloc, sp)
    }

    fn span_to_lines(&self, alloc: Global, sp: Span) -> Result<FileLines, LinesError> {
        (**self).span_to_lines(alloc, sp)
    }

    fn span_to_string(&self, alloc: Global, sp: Span) -> Result<String, AllocError> {
        (**self).span_to_string(alloc, sp)
    }

    fn span_to_snippet(&self, alloc: Global, sp: Span) -> Result<String, LinesError> {
        (**self).span_to_snippet(alloc, sp)
    }

    fn merge_spans(&self, sp_lhs: Span, sp_rhs: Span) -> Option<Span> {
        (**self).merge_spans(sp_lhs, sp_rhs)
    }

    fn call_span_if_macro(&self, sp: Span) -> Span {
        (**self).call_span_if_macro(sp)
    }

    fn doctest_offset_line(&self, line: usize) -> usize {
        (**self).doctest_offset_line(line)
    }

    ghost in_order = { λ it. M.in_order it.now };
}

impl<M: SourceMapper> SourceMapper for Rc<M> {
    ghost files = { λ it. M.files it.value };

    ghost call_span = { λ it. M.call_span it.value };

    ghost offset_line = { λ it. M.offset_line it.value };

    fn lookup_char_pos(&self, pos: BytePos) -> Option<Loc<'_>> {
        (**self).lookup_char_pos(pos)
    }

    fn span_to_filename(&self, alloc: Global, sp: Span) -> Result<FileName, AllocError> {
        (**self).span_to_filename(alloc, sp)
    }

    fn span_to_lines(&self, alloc: Global, sp: Span) -> Result<FileLines, LinesError> {
        (**self).span_to_lines(alloc, sp)
    }

    fn span_to_string(&self, alloc: Global, sp: Span) -> Result<String, AllocError> {
        (**self).span_to_string(alloc, sp)
    }

    fn span_to_snippet(&self, alloc: Global, sp: Span) -> Result<String, LinesError> {
        (**self).span_to_snippet(alloc, sp)
    }

    fn merge_spans(&self, sp_lhs: Span, sp_rhs: Span) -> Option<Span> {
        (**self).merge_spans(sp_lhs, sp_rhs)
    }

    fn call_span_if_macro(&self, sp: Span) -> Span {
        (**self).call_span_if_macro(sp)
    }

    fn doctest_offset_line(&self, line: usize) -> usize {
        (**self).doctest_offset_line(line)
    }

    ghost in_order = { λ it. M.in_order it.value };
}

#[cfg(test)]
mod tests {
    use super::*;
    use crate::{Globals, SourceMap};
    use std::test::Fail;

    // `<a>` has the places from 1 to 6, and `<b>` those from 7 to 10.
    fn two_files(alloc: Global) -> Result<SourceMap, Fail> {
        let mut map = SourceMap::new(alloc);
        let mut globals = Globals::new();
        let first = FileName::Custom(String::from_str(alloc, "a")?);
        map.new_source_file(&mut globals, first, String::from_str(alloc, "ab\ncd")?)?;
        let second = FileName::Custom(String::from_str(alloc, "b")?);
        map.new_source_file(&mut globals, second, String::from_str(alloc, "\u{e9}x")?)?;
        Ok(map)
    }

    fn span(lo: u32, hi: u32) -> Span {
        Span {
            lo: BytePos(lo),
            hi: BytePos(hi),
        }
    }

    fn is_shown<M: SourceMapper>(
        alloc: Global,
        map: &M,
        sp: Span,
        want: &str,
    ) -> Result<bool, AllocError> {
        let shown = map.span_to_string(alloc, sp)?;
        Ok(shown.as_str() == want)
    }

    fn are_shown(alloc: Global, map: &SourceMap) -> Result<bool, AllocError> {
        Ok(
            is_shown(alloc, map, span(1, 3), "<a>:1:1: 1:3")?
                && is_shown(alloc, &map, span(6, 2), "<a>:1:2: 2:3")?
                && is_shown(alloc, map, span(5, 8), "<a>:2:2: 1:1")?,
        )
    }

    fn is_nowhere(alloc: Global, map: SourceMap) -> Result<bool, AllocError> {
        is_shown(alloc, &Rc::new(alloc, map)?, span(0, 3), "no-location")
    }

    #[test]
    fn spans_are_shown_with_lines_and_columns(rt: HostRuntime) -> Result<(), Fail> {
        let map = two_files(rt.alloc())?;
        assert!(rt; are_shown(rt.alloc(), &map) == Ok(true));
        assert!(rt; is_nowhere(rt.alloc(), map) == Ok(true));
        Ok(())
    }

    fn snippet_is(alloc: Global, map: &SourceMap, sp: Span, want: Option<&str>) -> bool {
        match map.span_to_snippet(alloc, sp) {
            Ok(text) => want == Some(text.as_str()),
            Err(_) => want.is_none(),
        }
    }

    fn snippets_are(alloc: Global, map: &SourceMap) -> bool {
        snippet_is(alloc, map, span(2, 5), Some("b\nc"))
            && snippet_is(alloc, map, span(8, 10), Some("\u{e9}x"))
            && snippet_is(alloc, map, span(6, 7), None)
    }

    #[test]
    fn snippets_lie_in_one_file(rt: HostRuntime) -> Result<(), Fail> {
        let map = two_files(rt.alloc())?;
        assert!(rt; snippets_are(rt.alloc(), &map));
        Ok(())
    }

    fn line(index: usize, start: usize, end: usize) -> LineInfo {
        LineInfo {
            line_index: index,
            start_col: CharPos(start),
            end_col: CharPos(end),
        }
    }

    fn lines_are(alloc: Global, map: &SourceMap, sp: Span, want: &[LineInfo]) -> bool {
        match map.span_to_lines(alloc, sp) {
            Ok(found) => found.lines.as_slice() == want,
            Err(_) => false,
        }
    }

    #[test]
    fn lines_of_a_span_have_columns(rt: HostRuntime) -> Result<(), Fail> {
        let map = two_files(rt.alloc())?;
        let want = [line(0, 1, 2), line(1, 0, 1)];
        assert!(rt; lines_are(rt.alloc(), &map, span(2, 5), &want));
        assert!(rt; map.span_to_lines(rt.alloc(), span(6, 7)).is_err());
        Ok(())
    }

    fn merged_are(map: &SourceMap) -> bool {
        for (left, right, want) in [
            (span(1, 2), span(2, 5), Some(span(1, 5))),
            (span(1, 3), span(4, 5), None),
            (span(2, 3), span(2, 3), None),
            (span(4, 6), span(7, 8), None),
            (span(7, 8), span(9, 10), Some(span(7, 10))),
        ] {
            if map.merge_spans(left, right) != want {
                return false;
            }
        }
        true
    }

    #[test]
    fn spans_of_one_line_merge(rt: HostRuntime) -> Result<(), Fail> {
        let map = two_files(rt.alloc())?;
        assert!(rt; merged_are(&map));
        Ok(())
    }

    fn is_named(alloc: Global, map: &SourceMap, pos: u32, want: &str) -> Result<bool, AllocError> {
        let name = map.span_to_filename(alloc, span(pos, pos))?;
        let shown = name.to_string(alloc)?;
        Ok(shown.as_str() == want)
    }

    fn is_in(alloc: Global, map: &SourceMap, pos: u32, name: &str) -> Result<bool, AllocError> {
        let found = map.lookup_char_pos(BytePos(pos)).is_some();
        Ok(is_named(alloc, map, pos, name)? && found)
    }

    fn is_outside(alloc: Global, map: &SourceMap, pos: u32) -> Result<bool, AllocError> {
        let found = map.lookup_char_pos(BytePos(pos)).is_some();
        Ok(is_named(alloc, map, pos, "<anon>")? && !found)
    }

    fn places_have_files(alloc: Global, map: &SourceMap) -> Result<bool, AllocError> {
        Ok(
            is_outside(alloc, map, 0)?
                && is_in(alloc, map, 6, "<a>")?
                && is_in(alloc, map, 7, "<b>")?
                && is_in(alloc, map, 10, "<b>")?
                && is_outside(alloc, map, 11)?,
        )
    }

    #[test]
    fn a_place_has_a_file(rt: HostRuntime) -> Result<(), Fail> {
        let map = two_files(rt.alloc())?;
        assert!(rt; places_have_files(rt.alloc(), &map) == Ok(true));
        assert!(rt; map.call_span_if_macro(span(1, 2)) == span(1, 2));
        assert!(rt; map.doctest_offset_line(7) == 7);
        Ok(())
    }
}
