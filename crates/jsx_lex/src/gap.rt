//! What stands between tokens: blanks, line ends and comments.

ghost use Rattle.std.specs.Prelude.{◌≡◌, ◌||◌, MatchOption, IfSome, IsTrue, true, false, [], length};
ghost use Rattle.std.specs.Str.{chars};
ghost use Rattle.jsx_base.specs.Token.{Blank, InLineComment, Opening, InBlockComment, breaks, is_cut, skip, behind_gap};
ghost use Rattle.jsx_lex.specs.Characters.{IsTail};
ghost use Rattle.jsx_lex.specs.Gaps.{Leads, IsBehind, IsBetween, IsPartOf};
ghost use Rattle.jsx_lex.specs.Places.{EndsWith};

use crate::characters::{after, begins_with, first, is_blank, is_line_end};

/// A text from its next token on.
#[derive(Clone, Copy)]
pub struct Ahead<'s> {
    pub rest: &'s str,
    /// Whether a line ended before it.
    pub has_new_line: bool,
}

/// What begins at a character between two tokens.
#[derive(Clone, Copy)]
enum Between<'s> {
    /// A part of the gap, with what stands behind it.
    Part(Ahead<'s>),
    /// A comment that isn't closed.
    Cut,
    /// No part of the gap.
    Over,
}

/// Goes to the end of the line.
fn past_line(text: &str) -> &str
    ensures leads { Leads InLineComment (chars text.now) Blank (chars result.now) false }
    ensures ends { EndsWith text.now result.now }
{
    let mut rest = text;
    while let Some((c, behind)) = first(rest) {
        if is_line_end(c) {
            return rest;
        }
        rest = behind;
    }
    rest
}

/// Goes behind the `*/` of a block comment.
fn past_block(text: &str) -> Option<Ahead>
    ensures leads { MatchOption result (is_cut InBlockComment (chars text.now) ≡ true) (λ p. Leads InBlockComment (chars text.now) Blank (chars p.rest.now) p.has_new_line) }
    ensures ends { IfSome result (λ p. IsTail text.now p.rest.now) }
{
    let mut rest = text;
    let mut has_new_line = false;
    while let Some((c, behind)) = first(rest) {
        if c == '*' {
            if let Some(rest) = after(behind, '/') {
                return Some(Ahead { rest, has_new_line });
            }
        } else if is_line_end(c) {
            has_new_line = true;
        }
        rest = behind;
    }
    None
}

/// What a `/` begins, before the text behind it.
#[inline]
fn comment(text: &str) -> Between
    ensures is { IsBetween 47 (chars text.now) result }
    ensures ends { IsPartOf text.now result }
{
    if let Some(line) = after(text, '/') {
        return Between::Part(Ahead {
            rest: past_line(line),
            has_new_line: false,
        });
    }
    if let Some(block) = after(text, '*') {
        return match past_block(block) {
            Some(behind) => Between::Part(behind),
            None => Between::Cut,
        };
    }
    Between::Over
}

/// What the character begins, before the text behind it.
#[inline]
fn gap_part(c: char, text: &str) -> Between
    ensures is { IsBetween c (chars text.now) result }
    ensures ends { IsPartOf text.now result }
{
    if c == ' ' {
        return Between::Part(Ahead {
            rest: text,
            has_new_line: false,
        });
    }
    if c.is_ascii_graphic() && c != '/' {
        return Between::Over;
    }
    if is_blank(c) {
        return Between::Part(Ahead {
            rest: text,
            has_new_line: false,
        });
    }
    if is_line_end(c) {
        return Between::Part(Ahead {
            rest: text,
            has_new_line: true,
        });
    }
    if c == '/' {
        return comment(text);
    }
    Between::Over
}

/// Goes over blanks, line ends and comments, unless a comment isn't closed.
pub fn skip(text: &str) -> Option<Ahead>
    ensures cut { MatchOption result (is_cut Blank (chars text.now) ≡ true) (λ _. is_cut Blank (chars text.now) ≡ false) }
    ensures rest { IfSome result (λ a. chars a.rest.now ≡ skip (chars text.now)) }
    ensures new_line { IfSome result (λ a. a.has_new_line ≡ breaks (chars text.now)) }
    ensures front { IfSome result (λ a. IsBehind (chars a.rest.now)) }
    ensures ends { IfSome result (λ a. EndsWith text.now a.rest.now) }
{
    let mut rest = text;
    let mut has_new_line = false;
    while let Some((c, behind)) = first(rest) {
        match gap_part(c, behind) {
            Between::Part(part) => {
                rest = part.rest;
                has_new_line = has_new_line || part.has_new_line;
            }
            Between::Cut => return None,
            Between::Over => return Some(Ahead { rest, has_new_line }),
        }
    }
    Some(Ahead { rest, has_new_line })
}
