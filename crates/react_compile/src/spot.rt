//! On which line and in which column a place is.

ghost use Rattle.std.specs.Prelude.{◌≡◌, ◌^◌, ◌+◌, ◌<◌, [], length, MatchOption};
ghost use Rattle.std.specs.Str.{chars};
ghost use Rattle.jsx_base.specs.Columns.{BeginsWith};
ghost use Rattle.jsx_base.specs.Lines.{col_of, front, line_of};
ghost use Rattle.react_compile.specs.Spots.{past};

/// The line of the place behind so many bytes of a text, and the column in characters, both from 1. A place inside a
/// character counts as that character's start.
pub fn spot_of(text: &str, at: usize) -> (usize, usize)
    requires { length text.now < 2 ^ 32 }
    ensures line { result.0 ≡ line_of (front (chars text.now) at) }
    ensures column { result.1 ≡ col_of (front (chars text.now) at) + 1 }
{
    let mut spot = (1, 1);
    let mut left = at;
    let mut rest = text;
    while let Some((c, more)) = next_whole(rest, left) {
        spot = past(c, spot);
        left -= c.len_utf8();
        rest = more;
    }
    spot
}

/// The line and the column behind one character more.
fn past(c: char, spot: (usize, usize)) -> (usize, usize)
    requires { spot.0 + spot.1 < 2 ^ 33 }
    ensures { result ≡ past c spot }
{
    if c == '\n' {
        (spot.0 + 1, 1)
    } else {
        (spot.0, spot.1 + 1)
    }
}

/// The first character, if it stands whole in so many bytes, and the text behind it.
fn next_whole(text: &str, left: usize) -> Option<(char, &str)>
    ensures { MatchOption result (front (chars text.now) left ≡ []) (λ it. BeginsWith text.now left it.0 it.1.now) }
{
    let mut chars = text.chars();
    match chars.next() {
        Some(c) => {
            if c.len_utf8() <= left {
                Some((c, chars.as_str()))
            } else {
                None
            }
        }
        None => None,
    }
}
