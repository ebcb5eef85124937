//! A text, character by character.

ghost use Rattle.std.specs.Prelude.{◌≡◌, ◌<◌, ◌-◌, ◌++◌, drop, ◌∷◌, [], IsTrue, MatchOption, nat_eq, false, true, length};
ghost use Rattle.std.specs.Str.{chars, IsCharBoundary};
ghost use Rattle.jsx_base.specs.Token.{first_is, same, is_start, is_part, is_blank, is_line_end, is_digit};
ghost use Rattle.jsx_lex.specs.Characters.{Follows};
ghost use Rattle.jsx_lex.specs.Places.{EndsWith};

/// The first character and the text behind it.
#[inline]
pub fn first(text: &str) -> Option<(char, &str)>
    ensures { MatchOption result (chars text.now ≡ []) (λ (c, rest). Follows text.now c rest.now) }
{
    let mut chars = text.chars();
    match chars.next() {
        Some(c) => Some((c, chars.as_str())),
        None => None,
    }
}

/// Whether the text has no characters.
#[inline]
pub fn is_empty(text: &str) -> bool
    ensures { result ≡ same (chars text.now) [] }
{
    first(text).is_none()
}

/// The text behind its first character, if that is this one.
#[inline]
pub fn after(text: &str, c: char) -> Option<&str>
    ensures { MatchOption result (first_is (nat_eq c) (chars text.now) ≡ false) (λ rest. Follows text.now c rest.now) }
{
    match first(text) {
        Some((d, rest)) => { if c == d { Some(rest) } else { None } }
        None => None,
    }
}

/// Whether the text begins with this character.
#[inline]
pub fn begins_with(text: &str, c: char) -> bool
    ensures { result ≡ first_is (nat_eq c) (chars text.now) }
{
    after(text, c).is_some()
}

/// Whether the text begins with a decimal digit.
#[inline]
pub fn begins_with_digit(text: &str) -> bool
    ensures { result ≡ first_is is_digit (chars text.now) }
{
    match first(text) {
        Some((c, _)) => c.is_ascii_digit(),
        None => false,
    }
}

/// Whether a name may begin with the character.
#[inline(always)]
pub fn is_start(c: char) -> bool
    ensures { result ≡ is_start c }
{
    c.is_ascii_alphabetic()
        || c == '$'
        || c == '_'
        || (c >= '\u{80}' && unicode_ident::is_xid_start(c))
}

/// Whether a name may go on with each of the characters of ASCII.
const PARTS: [bool; 128] = [
    false, false, false, false, false, false, false, false, false, false, false, false, false,
    false, false, false, false, false, false, false, false, false, false, false, false, false,
    false, false, false, false, false, false, false, false, false, false, true, false, false,
    false, false, false, false, false, false, false, false, false, true, true, true, true, true,
    true, true, true, true, true, false, false, false, false, false, false, false, true, true,
    true, true, true, true, true, true, true, true, true, true, true, true, true, true, true, true,
    true, true, true, true, true, true, true, true, false, false, false, false, true, false, true,
    true, true, true, true, true, true, true, true, true, true, true, true, true, true, true, true,
    true, true, true, true, true, true, true, true, true, false, false, false, false, false,
];

/// Whether a name may go on with the character.
#[inline(always)]
pub fn is_part(c: char) -> bool
    ensures { result ≡ is_part c }
{
    if c < '\u{80}' {
        return PARTS[c as usize];
    }
    c == '\u{200C}' || c == '\u{200D}' || unicode_ident::is_xid_continue(c)
}

/// Whether the character ends a line.
#[inline]
pub fn is_line_end(c: char) -> bool
    ensures { result ≡ is_line_end c }
{
    c == '\n' || c == '\r' || c == '\u{2028}' || c == '\u{2029}'
}

/// Whether the character is a blank in a line.
#[inline]
pub fn is_blank(c: char) -> bool
    ensures { result ≡ is_blank c }
{
    matches!(
        c,
        ' ' | '\t'
            | '\u{B}'
            | '\u{C}'
            | '\u{A0}'
            | '\u{1680}'
            | '\u{202F}'
            | '\u{205F}'
            | '\u{3000}'
            | '\u{FEFF}'
            | '\u{2000}'..='\u{200A}'
    )
}

/// What stands before the rest of a text.
#[inline]
pub fn before<'s>(text: &'s str, rest: &str) -> &'s str
    requires { EndsWith text.now rest.now }
    ensures bytes { text.now ≡ result.now ++ rest.now }
    ensures characters { chars text.now ≡ chars result.now ++ chars rest.now }
{
    text.split_at(text.len() - rest.len()).0
}

/// Where the rest of a text begins, in bytes.
#[inline]
pub fn offset(text: &str, rest: &str) -> usize
    requires { EndsWith text.now rest.now }
    ensures value { result ≡ length text.now - length rest.now }
    ensures boundary { IsCharBoundary text.now result }
    ensures rest { drop result text.now ≡ rest.now }
{
    text.len() - rest.len()
}
