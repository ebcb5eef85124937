//! The files of a program, and their places.

ghost use Rattle.std.specs.Prelude.{◌≡◌, ℕ, slice_index_or, ◌+◌, ◌<◌, ◌≤◌, ◌↔◌, ◌⊎◌, [], ◌∷◌, ◌++◌, map, length, string_bytes, Err, IfOk, IfErr, OnOk, OnErr, MatchOption};
ghost use Rattle.std.specs.List.{All};
ghost use Rattle.jsx_base.specs.Files.{InOrder, end_of, file_at};
ghost use Rattle.std.specs.Option.{option_map};
ghost use Rattle.std.specs.declared.alloc.Global.{Global};
ghost use Rattle.std.specs.declared.rc.Rc.{Rc};
ghost use Rattle.jsx_base.specs.declared.source_file.SourceFile.{SourceFile};
ghost use Rattle.jsx_base.specs.SourceFile.{shared_file, Fits};

use crate::source_mapper::{ends, lines_in, loc_in, merge_in, show_places};
use crate::{
    BaseError, BytePos, FileLines, FileName, Globals, LinesError, Loc, SourceFile, SourceMapper,
    Span,
};
use std::alloc::{AllocError, Global};
use std::rc::Rc;

/// The files of a program. Each begins after the end of the one before.
#[derive(Debug, Drop)]
pub struct SourceMap {
    alloc: Global,
    files: Vec<Rc<SourceFile>>,
    ghost in_order: { InOrder (map shared_file files.items) },
}

impl SourceMap {
    ghost use Rattle.jsx_base.specs.FileName.{name_of};
    ghost use Rattle.jsx_base.specs.SourceFile.{file_from};
    ghost use Rattle.jsx_base.specs.SourceMap.{files_of};
    ghost use Rattle.jsx_base.specs.SpanPlaces.{span_file};

    /// No files. It takes no memory.
    pub fn new(alloc: Global) -> SourceMap
        ensures { files_of result ≡ [] }
    {
        SourceMap {
            alloc,
            files: Vec::new(alloc),
        }
    }

    /// Adds a file, from the next free place on.
    ///
    /// # Errors
    ///
    /// `TooLong` exactly where the next free place would be above 0xFFFF0000 then, and `Memory` for
    /// want of memory. In both cases nothing has changed.
    pub fn new_source_file(
        &mut self,
        globals: &mut Globals,
        name: FileName,
        src: String,
    ) -> Result<Rc<SourceFile>, BaseError>
        requires { All (λ file. end_of file < globals.old.next_pos) (files_of self.old) }
        ensures too_long { (result ≡ Err BaseError.TooLong) ↔ (Fits globals.old.next_pos (string_bytes src) → ⊥) }
        ensures cause { IfErr result (λ error. (error ≡ BaseError.TooLong) ⊎ (error ≡ BaseError.Memory)) }
        ensures file { IfOk result (λ it. shared_file it ≡ file_from (name_of name) (string_bytes src) globals.old.next_pos) }
        ensures added { IfOk result (λ it. files_of self.new ≡ files_of self.old ++ shared_file it ∷ []) }
        ensures moved { OnOk result (globals.new ≡ record globals.old { next_pos = globals.old.next_pos + length (string_bytes src) + 1 }) }
        ensures kept { OnErr result (files_of self.new ≡ files_of self.old) }
        ensures stays { OnErr result (globals.new ≡ globals.old) }

        // So the next file may be added.
        ensures ready { All (λ file. end_of file < globals.new.next_pos) (files_of self.new) }
    {
        let start = globals.next_pos();
        let Some(end) = end_place(start, src.len()) else {
            return Err(BaseError::TooLong);
        };
        let Ok(file) = self.add(name, src, BytePos(start), BytePos(end)) else {
            return Err(BaseError::Memory);
        };
        globals.move_to(end + 1);
        Ok(file)
    }

    // The file of a place.
    fn file_at(&self, pos: BytePos) -> Option<&Rc<SourceFile>>
        ensures { option_map (λ it. shared_file it.now) result ≡ file_at (files_of self.now) pos.0 }
    {
        file_in(&self.files, pos.0)
    }

    // The file in which both ends of a span are.
    fn span_file(&self, sp: Span) -> Option<&Rc<SourceFile>>
        ensures { option_map (λ it. shared_file it.now) result ≡ span_file (files_of self.now) sp }
    {
        let (low, high) = (sp.lo.0.min(sp.hi.0), sp.lo.0.max(sp.hi.0));
        match self.file_at(BytePos(low)) {
            Some(file) => {
                if high <= file.end_pos.0 {
                    Some(file)
                } else {
                    None
                }
            }
            None => None,
        }
    }

    // Adds a file between two places.
    fn add(
        &mut self,
        name: FileName,
        src: String,
        start_pos: BytePos,
        end_pos: BytePos,
    ) -> Result<Rc<SourceFile>, AllocError>
        requires after { All (λ file. end_of file < start_pos.0) (files_of self.old) }
        requires long { end_pos.0 ≡ start_pos.0 + length (string_bytes src) }
        ensures file { IfOk result (λ it. shared_file it ≡ file_from (name_of name) (string_bytes src) start_pos.0) }
        ensures added { IfOk result (λ it. files_of self.new ≡ files_of self.old ++ shared_file it ∷ []) }
        ensures kept { OnErr result (files_of self.new ≡ files_of self.old) }
    {
        let file = SourceFile::new(self.alloc, name, src, start_pos, end_pos)?;
        let file = Rc::new(self.alloc, file)?;
        self.files.push(file.clone()?)?;
        Ok(file)
    }
}

impl SourceMapper for SourceMap {
    ghost use Rattle.jsx_base.specs.FileName.{name_of};
    ghost use Rattle.jsx_base.specs.SourceMap.{files_of};
    ghost use Rattle.jsx_base.specs.Locs.{loc_data};

    ghost files = { files_of };

    ghost call_span = { λ _ sp. sp };

    ghost offset_line = { λ _ line. line };

    fn lookup_char_pos(&self, pos: BytePos) -> Option<Loc<'_>> {
        match self.file_at(pos) {
            Some(file) => Some(loc_in(file, pos)),
            None => None,
        }
    }

    fn span_to_filename(&self, alloc: Global, sp: Span) -> Result<FileName, AllocError> {
        match self.file_at(sp.lo.min(sp.hi)) {
            Some(file) => file.name.try_clone(alloc),
            None => Ok(FileName::Anon),
        }
    }

    fn span_to_lines(&self, alloc: Global, sp: Span) -> Result<FileLines, LinesError> {
        match self.span_file(sp) {
            Some(file) => {
                match lines_in(alloc, file, sp) {
                    Ok(lines) => Ok(lines),
                    Err(_) => Err(LinesError::Memory),
                }
            }
            None => Err(LinesError::OtherFile),
        }
    }

    fn span_to_string(&self, alloc: Global, sp: Span) -> Result<String, AllocError> {
        let (low, high) = ends(sp);
        let Some(first) = self.file_at(low) else {
            return String::from_str(alloc, "no-location");
        };
        let Some(last) = self.file_at(high) else {
            return String::from_str(alloc, "no-location");
        };
        show_places(alloc, sp, first, last)
    }

    fn span_to_snippet(&self, alloc: Global, sp: Span) -> Result<String, LinesError> {
        match self.span_file(sp) {
            Some(file) => {
                let text = file.text_between(sp.lo.min(sp.hi), sp.lo.max(sp.hi));
                match String::from_str(alloc, text) {
                    Ok(text) => Ok(text),
                    Err(_) => Err(LinesError::Memory),
                }
            }
            None => Err(LinesError::OtherFile),
        }
    }

    fn merge_spans(&self, sp_lhs: Span, sp_rhs: Span) -> Option<Span> {
        match self.span_file(sp_lhs) {
            Some(file) => merge_in(file, sp_lhs, sp_rhs),
            None => None,
        }
    }

    fn call_span_if_macro(&self, sp: Span) -> Span {
        sp
    }

    fn doctest_offset_line(&self, line: usize) -> usize {
        line
    }

    ghost in_order = { λ it. it.in_order };
}

// The file of a place.
fn file_in(files: &[Rc<SourceFile>], pos: u32) -> Option<&Rc<SourceFile>>
    requires { InOrder (map shared_file files.now) }
    ensures { option_map (λ it. shared_file it.now) result ≡ file_at (map shared_file files.now) pos }
{
    let begun = files_until(files, pos);
    if begun == 0 {
        return None;
    }
    let file = &files[begun - 1];
    if pos <= file.end_pos.0 {
        Some(file)
    } else {
        None
    }
}

// How many files begin at a place or before it.
fn files_until(files: &[Rc<SourceFile>], pos: u32) -> usize
    requires { InOrder (map shared_file files.now) }
    ensures bound { result ≤ length files.now }
    ensures until { (k : ℕ) (d : Rc SourceFile Global) → k < result → (shared_file (slice_index_or files.now k d)).start ≤ pos }
    ensures from { (k : ℕ) (d : Rc SourceFile Global) → result ≤ k → k < length files.now → pos < (shared_file (slice_index_or files.now k d)).start }
{
    files.partition_point(|file| file.start_pos.0 <= pos)
}

// The place behind a text of so many bytes, if that and one more place are left.
fn end_place(start: u32, bytes: usize) -> Option<u32>
    ensures { MatchOption result (start + bytes + 1 ≤ 0xFFFF0000 → ⊥) (λ end. (end ≡ start + bytes) × (start + bytes + 1 ≤ 0xFFFF0000)) }
{
    let bytes = u32::try_from(bytes).ok()?;
    let end = start.checked_add(bytes)?;
    if end < 0xFFFF_0000 { Some(end) } else { None }
}

#[cfg(test)]
mod tests {
    use super::*;

    fn file_of_text(alloc: Global, text: &str) -> Result<Rc<SourceFile>, BaseError> {
        let src = match String::from_str(alloc, text) {
            Ok(src) => src,
            Err(_) => return Err(BaseError::Memory),
        };
        SourceMap::new(alloc).new_source_file(&mut Globals::with(1, 10), FileName::Anon, src)
    }

    fn spot_is(file: &SourceFile, pos: u32, want: [usize; 4]) -> bool {
        let spot = file.spot(BytePos(pos));
        [spot.line, spot.col, spot.col_display, spot.before] == want
    }

    // Line, column and display column, and the bytes before the character.
    fn spots_are(file: &SourceFile) -> bool {
        for (pos, want) in [
            (10, [1, 0, 0, 0]),
            (11, [1, 0, 0, 0]),
            (12, [1, 1, 1, 2]),
            (13, [1, 2, 5, 3]),
            (16, [1, 3, 7, 6]),
            (18, [1, 5, 8, 8]),
            (19, [2, 0, 0, 9]),
            (21, [2, 2, 1, 11]),
        ] {
            if !spot_is(file, pos, want) {
                return false;
            }
        }
        true
    }

    fn places_are_found(alloc: Global) -> Result<bool, BaseError> {
        let file = file_of_text(alloc, "\u{e9}\t\u{4e2d}x\r\n\u{1}z")?;
        Ok(spots_are(&file))
    }

    #[test]
    fn places_have_lines_and_columns(rt: HostRuntime) {
        assert!(rt; places_are_found(rt.alloc()) == Ok(true));
    }

    fn line_is(file: &SourceFile, index: usize, want: Option<&str>) -> bool {
        file.get_line(index) == want
    }

    fn lines_are(file: &SourceFile) -> bool {
        file.line_count() == 3
            && line_is(file, 0, Some("a\rb\r"))
            && line_is(file, 1, Some(""))
            && line_is(file, 2, Some("c"))
            && line_is(file, 3, None)
    }

    fn lines_are_found(alloc: Global) -> Result<bool, BaseError> {
        let file = file_of_text(alloc, "a\rb\r\n\nc")?;
        Ok(lines_are(&file))
    }

    #[test]
    fn lines_end_at_lf_alone(rt: HostRuntime) {
        assert!(rt; lines_are_found(rt.alloc()) == Ok(true));
    }

    // Whether an empty file can be added at this place, and moves the next one then, or none can be.
    fn adds_at(alloc: Global, next: u32, fits: bool) -> bool {
        let mut globals = Globals::with(1, next);
        let empty = String::new(alloc);
        let added = SourceMap::new(alloc).new_source_file(&mut globals, FileName::Anon, empty);
        added.is_ok() == fits && (globals.next_pos() != next) == fits
    }

    #[test]
    fn a_file_ends_below_the_greatest_place(rt: HostRuntime) {
        assert!(rt; adds_at(rt.alloc(), 0xFFFE_FFFF, true));
        assert!(rt; adds_at(rt.alloc(), 0xFFFF_0000, false));
        assert!(rt; adds_at(rt.alloc(), u32::MAX, false));
    }
}
