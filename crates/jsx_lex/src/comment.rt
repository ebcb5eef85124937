//! The comments between two tokens.

ghost use Rattle.std.specs.Prelude.{◌≡◌, ◌+◌, ◌-◌, ◌<◌, ◌^◌, MatchOption, IfOk, IsFalse, drop, length, map, false, []};
ghost use Rattle.std.specs.Str.{chars, IsCharBoundary};
ghost use Rattle.jsx_base.specs.Token.{Blank, is_cut, skip};
ghost use Rattle.jsx_base.specs.Comments.{comment_data};
ghost use Rattle.jsx_lex.specs.Comments.{HasComments, from_close, from_line_end, remark};
ghost use Rattle.jsx_lex.specs.Gaps.{IsBehind};
ghost use Rattle.jsx_lex.specs.Parts.{IsPart, IsClosed};
ghost use Rattle.jsx_lex.specs.Places.{EndsWith};

use crate::characters::{after, before, first, is_blank, is_line_end, offset};
use jsx_base::{BytePos, Comment, CommentKind, Span};
use std::alloc::{AllocError, Global};

/// A part of a gap, and the text behind it.
#[derive(Clone, Copy)]
enum Part<'s> {
    /// A blank or a line end.
    Space(&'s str),
    /// What stands behind `//`, and behind the comment.
    Line(&'s str, &'s str),
    /// What stands between `/*` and `*/`, and behind the comment.
    Block(&'s str, &'s str),
}

/// What a block comment holds, and the text behind it.
#[derive(Clone, Copy)]
struct Closed<'s> {
    body: &'s str,
    rest: &'s str,
}

/// The text from its next line end on.
fn line_end(text: &str) -> &str
    ensures line { chars result.now ≡ from_line_end (chars text.now) }
    ensures ends { EndsWith text.now result.now }
{
    let mut rest = text;
    while let Some((c, behind)) = first(rest) {
        if is_line_end(c) {
            return rest;
        }
        rest = behind;
    }
    rest
}

/// What stands before the first `*/`, and behind it.
fn close(text: &str) -> Option<Closed>
    ensures { MatchOption result (from_close (chars text.now) ≡ []) (λ x. IsClosed text.now x.body.now x.rest.now) }
{
    let mut rest = text;
    while let Some((c, behind)) = first(rest) {
        if c == '*' {
            if let Some(more) = after(behind, '/') {
                return Some(Closed {
                    body: before(text, rest),
                    rest: more,
                });
            }
        }
        rest = behind;
    }
    None
}

/// The part of a gap that the text begins with.
fn next_part(text: &str) -> Option<Part>
    requires { is_cut Blank (chars text.now) ≡ false }
    ensures { MatchOption result (IsBehind (chars text.now)) (λ p. IsPart text.now p) }
{
    let Some((c, behind)) = first(text) else {
        return None;
    };
    if is_blank(c) {
        return Some(Part::Space(behind));
    }
    if is_line_end(c) {
        return Some(Part::Space(behind));
    }
    if c != '/' {
        return None;
    }
    if let Some(line) = after(behind, '/') {
        let rest = line_end(line);
        return Some(Part::Line(before(line, rest), rest));
    }
    if let Some(block) = after(behind, '*') {
        let Some(closed) = close(block) else {
            return None;
        };
        return Some(Part::Block(closed.body, closed.rest));
    }
    None
}

/// The place at which the rest of the text begins.
#[inline]
fn place(start: BytePos, text: &str, rest: &str) -> BytePos
    requires ends { EndsWith text.now rest.now }
    requires fits { start.0 + length text.now < 2 ^ 32 }
    ensures { result.0 ≡ start.0 + (length text.now - length rest.now) }
{
    BytePos(start.0 + offset(text, rest) as u32)
}

/// A comment of its own memory.
fn written(
    alloc: Global,
    kind: CommentKind,
    lo: BytePos,
    hi: BytePos,
    body: &str,
) -> Result<Comment, AllocError>
    ensures { IfOk result (λ c. comment_data c ≡ remark kind lo.0 hi.0 body.now) }
{
    Ok(Comment {
        kind,
        span: Span { lo, hi },
        text: String::from_str(alloc, body)?,
    })
}

/// The comments between two tokens, in order: `from` is the end of the first token in bytes, or 0, and `to` is where the
/// second begins, or the text's end. The text's first byte has the place `start`.
///
/// # Errors
///
/// `AllocError` for want of memory.
pub fn comments(
    alloc: Global,
    text: &str,
    start: BytePos,
    from: usize,
    to: usize,
) -> Result<Vec<Comment>, AllocError>
    requires from { IsCharBoundary text.now from }
    requires to { IsCharBoundary text.now to }
    requires gap { skip (chars (drop from text.now)) ≡ chars (drop to text.now) }
    requires whole { IsFalse (is_cut Blank (chars (drop from text.now))) }
    requires fits { start.0 + length text.now < 2 ^ 32 }
    ensures { IfOk result (λ found. HasComments (start.0 + from) (drop from text.now) (map comment_data found.items) (drop to text.now)) }
{
    let mut found = Vec::new(alloc);
    if from == to {
        return Ok(found);
    }
    let mut rest = text.split_at(from).1;
    while let Some(part) = next_part(rest) {
        let lo = place(start, text, rest);
        match part {
            Part::Space(behind) => {
                rest = behind;
            }
            Part::Line(body, behind) => {
                let hi = place(start, text, behind);
                let line = written(alloc, CommentKind::Line, lo, hi, body)?;
                found.push(line)?;
                rest = behind;
            }
            Part::Block(body, behind) => {
                let hi = place(start, text, behind);
                let block = written(alloc, CommentKind::Block, lo, hi, body)?;
                found.push(block)?;
                rest = behind;
            }
        }
    }
    Ok(found)
}
