//! A text, character by character.

ghost use Rattle.std.specs.Prelude.{◌≡◌, [], codes, nat_eq, true, MatchOption};
ghost use Rattle.std.specs.Str.{chars, bytes_eq};
ghost use Rattle.std.specs.List.{list_any};
ghost use Rattle.jsx_base.specs.Token.{same, first_is, is_blank, is_line_end};
ghost use Rattle.jsx_lex.specs.Characters.{Follows};
ghost use Rattle.jsx_base.specs.Lines.{size};

/// How many bytes the text has.
#[inline]
pub fn bytes(text: &str) -> usize
    ensures { result ≡ size (chars text.now) }
{
    text.len()
}

/// Whether texts of one length are the same. It is kept apart from the test of the lengths, which then takes no memory.
#[inline(never)]
fn is_equal(text: &str, other: &str) -> bool
    ensures { result ≡ bytes_eq text.now other.now }
{
    text == other
}

/// Whether the texts are the same. Most differ in length, which costs less to ask.
#[inline(always)]
pub fn is_same(text: &str, other: &str) -> bool
    ensures { result ≡ bytes_eq text.now other.now }
{
    if text.len() != other.len() {
        return false;
    }
    is_equal(text, other)
}

/// Whether the text is one of these.
#[inline(always)]
pub fn is_among(text: &str, words: &[&str]) -> bool
    ensures { result ≡ list_any (λ w. bytes_eq w.now text.now) words.now }
{
    words.iter().any(|word| is_same(word, text))
}

/// The first character.
#[inline(always)]
pub fn first(text: &str) -> Option<char>
    ensures { MatchOption result (chars text.now ≡ []) (λ c. first_is (nat_eq c) (chars text.now) ≡ true) }
{
    let mut chars = text.chars();
    match chars.next() {
        Some(c) => Some(c),
        None => None,
    }
}

/// The first character and the text behind it.
pub fn split_first(text: &str) -> Option<(char, &str)>
    ensures { MatchOption result (chars text.now ≡ []) (λ (c, rest). Follows text.now c rest.now) }
{
    let mut chars = text.chars();
    match chars.next() {
        Some(c) => Some((c, chars.as_str())),
        None => None,
    }
}

/// Whether the text begins with this character.
pub fn begins_with(text: &str, c: char) -> bool
    ensures { result ≡ first_is (nat_eq c) (chars text.now) }
{
    match split_first(text) {
        Some((d, _)) => c == d,
        None => false,
    }
}

/// Whether the character ends a line (ECMA-262 section 12.3).
pub fn is_line_end(c: char) -> bool
    ensures { result ≡ is_line_end c }
{
    c == '\n' || c == '\r' || c == '\u{2028}' || c == '\u{2029}'
}

/// Whether the character is a blank in a line (ECMA-262 section 12.2).
pub fn is_blank(c: char) -> bool
    ensures { result ≡ is_blank c }
{
    matches!(
        c,
        ' ' | '\t'
            | '\u{B}'
            | '\u{C}'
            | '\u{A0}'
            | '\u{1680}'
            | '\u{202F}'
            | '\u{205F}'
            | '\u{3000}'
            | '\u{FEFF}'
            | '\u{2000}'..='\u{200A}'
    )
}

/// Whether the token is `,`.
#[inline(always)]
pub fn is_comma(raw: &str) -> bool
    ensures { result ≡ same (chars raw.now) (codes ",") }
{
    is_same(raw, ",")
}

/// Whether the token is `=`.
#[inline(always)]
pub fn is_equals(raw: &str) -> bool
    ensures { result ≡ same (chars raw.now) (codes "=") }
{
    is_same(raw, "=")
}

/// Whether the token is `(`.
#[inline(always)]
pub fn is_open(raw: &str) -> bool
    ensures { result ≡ same (chars raw.now) (codes "(") }
{
    is_same(raw, "(")
}

/// Whether the token is `}`.
#[inline(always)]
pub fn is_right_brace(raw: &str) -> bool
    ensures { result ≡ same (chars raw.now) (codes "}") }
{
    is_same(raw, "}")
}

/// Whether the word is `in`.
#[inline(always)]
pub fn is_in(word: &str) -> bool
    ensures { result ≡ same (chars word.now) (codes "in") }
{
    is_same(word, "in")
}

/// Whether the word is `instanceof`.
#[inline(always)]
pub fn is_instanceof(word: &str) -> bool
    ensures { result ≡ same (chars word.now) (codes "instanceof") }
{
    is_same(word, "instanceof")
}

/// Whether the word is `void`.
#[inline(always)]
pub fn is_void(word: &str) -> bool
    ensures { result ≡ same (chars word.now) (codes "void") }
{
    is_same(word, "void")
}

/// Whether the word is `typeof`.
#[inline(always)]
pub fn is_typeof(word: &str) -> bool
    ensures { result ≡ same (chars word.now) (codes "typeof") }
{
    is_same(word, "typeof")
}

/// Whether the word is `delete`.
#[inline(always)]
pub fn is_delete(word: &str) -> bool
    ensures { result ≡ same (chars word.now) (codes "delete") }
{
    is_same(word, "delete")
}

/// Whether the word is `new`.
#[inline(always)]
pub fn is_new(word: &str) -> bool
    ensures { result ≡ same (chars word.now) (codes "new") }
{
    is_same(word, "new")
}

/// Whether the token is `=>`.
#[inline(always)]
pub fn is_arrow(token: &str) -> bool
    ensures { result ≡ same (chars token.now) (codes "=>") }
{
    is_same(token, "=>")
}
