//! A file, and its lines.

ghost use Rattle.std.specs.Prelude.{◌≡◌, ℕ, ◌+◌, ◌^◌, ◌<◌, ◌≤◌, ◌∷◌, drop, nat_le, slice_index, [], length, slice_get, string_bytes, IfOk, MatchOption};
ghost use Rattle.std.specs.Str.{chars};
ghost use Rattle.std.specs.List.Sorted.{IsPartitionedBy};
ghost use Rattle.std.specs.Option.{option_map, unwrap_or};
ghost use Rattle.jsx_base.specs.Lines.{lines, front, size, line_of, col_of, display_col_of};
ghost use Rattle.jsx_base.specs.LineStarts.{Split, starts};

use crate::columns::walk;
use crate::{BytePos, FileName};
use std::alloc::{AllocError, Global};

/// A text with a name, and the places of its bytes.
#[derive(Debug, Drop)]
pub struct SourceFile {
    pub name: FileName,
    pub src: String,
    /// The place of the first byte.
    pub start_pos: BytePos,
    /// The place behind the last byte.
    pub end_pos: BytePos,
    // How many bytes stand before each line.
    line_starts: Vec<usize>,
    ghost end: { end_pos.0 ≡ start_pos.0 + length (string_bytes src) },
    ghost short: { end_pos.0 < 2 ^ 32 },
    ghost line_starts_are: { line_starts.items ≡ starts 0 (lines (chars (string_bytes src))) },
}

impl SourceFile {
    ghost use Rattle.jsx_base.specs.FileName.{name_of};
    ghost use Rattle.jsx_base.specs.Files.{front_at, holds};
    ghost use Rattle.jsx_base.specs.SpanPlaces.{begin_of};
    ghost use Rattle.jsx_base.specs.SourceFile.{file_of, file_from};

    // The file of a text between two places.
    pub(crate) fn new(
        alloc: Global,
        name: FileName,
        src: String,
        start_pos: BytePos,
        end_pos: BytePos,
    ) -> Result<SourceFile, AllocError>
        requires { end_pos.0 ≡ start_pos.0 + length (string_bytes src) }
        ensures { IfOk result (λ it. file_of it ≡ file_from (name_of name) (string_bytes src) start_pos.0) }
    {
        let line_starts = line_starts(alloc, src.as_str())?;
        Ok(SourceFile {
            name,
            src,
            start_pos,
            end_pos,
            line_starts,
        })
    }

    /// How many lines there are: one more than LF characters.
    pub fn line_count(&self) -> usize
        ensures { result ≡ length (lines (file_of self.now).text) }
    {
        self.line_starts.as_slice().len()
    }

    /// A line, from 0, without its LF. `None` exactly where there are no more lines than `index`.
    /// It takes time by the bytes of the line.
    pub fn get_line(&self, index: usize) -> Option<&str>
        ensures { option_map (λ line. chars line.now) result ≡ slice_get (lines (file_of self.now).text) index }
    {
        let start = *self.line_starts.get(index)?;
        let (_, rest) = self.src.as_str().split_at(start);
        match split_line(rest) {
            Some((line, _)) => Some(line),
            None => Some(rest),
        }
    }

    // How many characters a line has, or 0 where there is none.
    pub(crate) fn line_len(&self, index: usize) -> usize
        ensures { result ≡ length (unwrap_or (slice_get (lines (file_of self.now).text) index) []) }
    {
        match self.get_line(index) {
            Some(line) => char_count(line),
            None => 0,
        }
    }

    // Whether a place is in the file.
    pub(crate) fn has(&self, pos: u32) -> bool
        ensures { result ≡ holds pos (file_of self.now) }
    {
        self.start_pos.0 <= pos && pos <= self.end_pos.0
    }

    // Where the character of a place begins.
    pub(crate) fn begin_of(&self, pos: BytePos) -> BytePos
        ensures { result.0 ≡ begin_of (file_of self.now) pos.0 }
    {
        BytePos(self.start_pos.0 + self.spot(pos).before as u32)
    }

    // The text between two places.
    pub(crate) fn text_between(&self, low: BytePos, high: BytePos) -> &str
        requires { low.0 ≤ high.0 }
        ensures { chars result.now ≡ drop (length (front_at (file_of self.now) low.0)) (front_at (file_of self.now) high.0) }
    {
        let (front, _) = self.src.as_str().split_at(self.spot(high).before);
        front.split_at(self.spot(low).before).1
    }

    // The line and the columns of a place.
    pub(crate) fn spot(&self, pos: BytePos) -> Spot
        ensures line { result.line ≡ line_of (front_at (file_of self.now) pos.0) }
        ensures col { result.col ≡ col_of (front_at (file_of self.now) pos.0) }
        ensures col_display { result.col_display ≡ display_col_of (front_at (file_of self.now) pos.0) }
        ensures before { result.before ≡ size (front_at (file_of self.now) pos.0) }
        ensures few { result.col ≤ pos.0 }
    {
        let place = pos.0.saturating_sub(self.start_pos.0) as usize;
        spot_in(self.src.as_str(), &self.line_starts, place)
    }
}

// A place in a file: its line from 1, its columns from 0, and the bytes before its character.
#[derive(Clone, Copy)]
pub(crate) struct Spot {
    pub line: usize,
    pub col: usize,
    pub col_display: usize,
    pub before: usize,
}

// How many characters a text has.
fn char_count(text: &str) -> usize
    ensures { result ≡ length (chars text.now) }
{
    text.chars().count()
}

// Where the character behind so many bytes of a text begins.
fn spot_in(text: &str, line_starts: &[usize], place: usize) -> Spot
    requires starts { line_starts.now ≡ starts 0 (lines (chars text.now)) }
    requires short { length text.now < 2 ^ 32 }
    ensures line { result.line ≡ line_of (front (chars text.now) place) }
    ensures col { result.col ≡ col_of (front (chars text.now) place) }
    ensures col_display { result.col_display ≡ display_col_of (front (chars text.now) place) }
    ensures before { result.before ≡ size (front (chars text.now) place) }
    ensures few { result.col ≤ place }
{
    let line = lines_until(line_starts, place);
    let start = line_starts[line - 1];
    let (_, rest) = text.split_at(start);
    let walked = walk(rest, place - start);
    Spot {
        line,
        col: walked.chars,
        col_display: walked.columns,
        before: start + walked.bytes,
    }
}

// How many lines begin at a place or before it.
fn lines_until(line_starts: &[usize], place: usize) -> usize
    requires { IsPartitionedBy (λ start. nat_le start place) line_starts.now }
    ensures bound { result ≤ length line_starts.now }
    ensures until { (k : ℕ) → k < result → slice_index line_starts.now k ≤ place }
    ensures from { (k : ℕ) → result ≤ k → k < length line_starts.now → place < slice_index line_starts.now k }
{
    line_starts.partition_point(|start| *start <= place)
}

// What stands before the first LF of a text, and behind it.
fn split_line(text: &str) -> Option<(&str, &str)>
    ensures { MatchOption result (lines (chars text.now) ≡ chars text.now ∷ []) (λ it. Split text.now it.0.now it.1.now) }
{
    text.split_once('\n')
}

// How many bytes stand before each line.
fn line_starts(alloc: Global, text: &str) -> Result<Vec<usize>, AllocError>
    ensures { IfOk result (λ it. it.items ≡ starts 0 (lines (chars text.now))) }
{
    let mut line_starts = vec![in alloc; 0]?;
    let mut start = 0;
    let mut rest = text;
    while let Some((line, more)) = split_line(rest) {
        start += line.len() + 1;
        line_starts.push(start)?;
        rest = more;
    }
    Ok(line_starts)
}
