//! Walking over a text, character by character.

ghost use Rattle.std.specs.Prelude.{◌≡◌, ◌^◌, ◌<◌, ◌≤◌, [], length, MatchOption};
ghost use Rattle.std.specs.List.{sum_by};
ghost use Rattle.std.specs.Str.{chars};
ghost use Rattle.jsx_base.specs.Lines.{columns_of, front, size};
ghost use Rattle.jsx_base.specs.Columns.{BeginsWith};

use unicode_width::UnicodeWidthChar;

/// What was walked over.
#[derive(Clone, Copy)]
pub struct Walked {
    pub chars: usize,
    /// Display columns.
    pub columns: usize,
    pub bytes: usize,
}

/// Walks over the characters that stand whole in so many bytes of a text.
pub fn walk(text: &str, bytes: usize) -> Walked
    requires { length text.now < 2 ^ 32 }
    ensures chars { result.chars ≡ length (front (chars text.now) bytes) }
    ensures columns { result.columns ≡ sum_by columns_of (front (chars text.now) bytes) }
    ensures bytes { result.bytes ≡ size (front (chars text.now) bytes) }
{
    let mut count = 0;
    let mut columns = 0;
    let mut width = 0;
    let mut left = bytes;
    let mut rest = text;
    while let Some((c, more)) = next_whole(rest, left) {
        count += 1;
        columns += columns_of(c);
        width += c.len_utf8();
        left -= c.len_utf8();
        rest = more;
    }
    Walked {
        chars: count,
        columns,
        bytes: width,
    }
}

// The first character, if it stands whole in so many bytes, and the text behind it.
fn next_whole(text: &str, left: usize) -> Option<(char, &str)>
    ensures { MatchOption result (front (chars text.now) left ≡ []) (λ it. BeginsWith text.now left it.0 it.1.now) }
{
    let mut chars = text.chars();
    match chars.next() {
        Some(c) => {
            if c.len_utf8() <= left {
                Some((c, chars.as_str()))
            } else {
                None
            }
        }
        None => None,
    }
}

// The display columns of a character.
fn columns_of(c: char) -> usize
    ensures columns { result ≡ columns_of c }
    ensures few { result ≤ 4 }
{
    if c == '\t' { 4 } else { c.width().unwrap_or(0) }
}
