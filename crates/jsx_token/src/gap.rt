//! Whether a line ends before the next token (ECMA-262 sections 12.2 to 12.4).

ghost use Rattle.std.specs.Prelude.{◌≡◌, ◌∷◌, []};
ghost use Rattle.std.specs.Str.{chars};
ghost use Rattle.jsx_base.specs.Token.{InBlockComment, begins, breaks, gap_after_blank, gap_next};
ghost use Rattle.jsx_token.specs.Gaps.{gap_of};

use crate::characters::{begins_with, is_blank, is_line_end, split_first};

/// Where a gap has come to.
#[derive(Clone, Copy)]
pub enum Gap {
    Blank,
    LineComment,
    /// Behind the `/` of a block comment.
    Slash,
    /// Behind its `/*`.
    Opened,
    BlockComment,
    /// Behind the `*` of its `*/`.
    Star,
    Over,
}

impl Gap {
    /// Where it is behind one more character, before the rest of the text.
    fn next(self, c: char, rest: &str) -> Gap
        ensures { gap_of result ≡ gap_next (gap_of self) c (chars rest.now) }
    {
        match self {
            Gap::Blank => behind_blank(c, rest),
            Gap::LineComment => {
                if is_line_end(c) {
                    Gap::Blank
                } else {
                    Gap::LineComment
                }
            }
            Gap::Slash => Gap::Opened,
            Gap::Opened => in_block(c, rest),
            Gap::BlockComment => in_block(c, rest),
            Gap::Star => Gap::Blank,
            Gap::Over => Gap::Over,
        }
    }
}

/// Whether a character and the one behind it are these.
fn is_pair(c: char, rest: &str, first: char, second: char) -> bool
    ensures { result ≡ begins (first ∷ second ∷ []) (c ∷ chars rest.now) }
{
    c == first && begins_with(rest, second)
}

fn behind_blank(c: char, rest: &str) -> Gap
    ensures { gap_of result ≡ gap_after_blank c (chars rest.now) }
{
    if is_blank(c) {
        return Gap::Blank;
    }
    if is_line_end(c) {
        return Gap::Blank;
    }
    if is_pair(c, rest, '/', '/') {
        return Gap::LineComment;
    }
    if is_pair(c, rest, '/', '*') {
        return Gap::Slash;
    }
    Gap::Over
}

fn in_block(c: char, rest: &str) -> Gap
    ensures { gap_of result ≡ gap_next InBlockComment c (chars rest.now) }
{
    if is_pair(c, rest, '*', '/') {
        Gap::Star
    } else {
        Gap::BlockComment
    }
}

/// Whether a line ends in the gap that the text begins with. A comment that isn't closed belongs to it.
pub fn breaks(text: &str) -> bool
    ensures { result ≡ breaks (chars text.now) }
{
    let mut gap = Gap::Blank;
    let mut rest = text;
    while let Some((c, behind)) = split_first(rest) {
        gap = gap.next(c, behind);
        if matches!(gap, Gap::Over) {
            return false;
        }
        if is_line_end(c) {
            return true;
        }
        rest = behind;
    }
    false
}
