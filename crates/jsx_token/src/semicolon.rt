//! Where a semicolon may be missing (ECMA-262 section 12.10).

ghost use Rattle.std.specs.Prelude.{◌≡◌, ◌||◌, [], ◌∷◌, codes, filter, map, nat_eq};
ghost use Rattle.std.specs.Str.{chars};
ghost use Rattle.jsx_base.specs.Token.{first_is, among};
ghost use Rattle.jsx_tree.specs.Reading.{going_on, is_backquote, continues, prefix_words};
ghost use Rattle.jsx_token.specs.Here.{ending_of};
ghost use Rattle.jsx_token.specs.Semicolons.{lacks};

use crate::characters::{first, is_comma, is_equals, is_open, is_right_brace};
use crate::lexer::Ending;
use crate::word::Word;

/// The tokens that go on with an expression from a new line, of those that begin with the byte.
fn going_on_from(first: u8) -> &'static [&'static str]
    ensures { map (λ w. w.now) result.now ≡ filter (first_is (nat_eq first)) going_on }
{
    match first {
        b'(' => &["("],
        b'[' => &["["],
        b'.' => &["."],
        b',' => &[","],
        b':' => &[":"],
        b'i' => &["in", "instanceof"],
        b'?' => &["?.", "?", "??", "??="],
        b'|' => &["||", "|", "|=", "||="],
        b'&' => &["&&", "&", "&=", "&&="],
        b'^' => &["^", "^="],
        b'=' => &["=>", "==", "===", "="],
        b'!' => &["!=", "!=="],
        b'<' => &["<", "<=", "<<", "<<="],
        b'>' => &[">", ">=", ">>", ">>>", ">>=", ">>>="],
        b'+' => &["+", "+="],
        b'-' => &["-", "-="],
        b'*' => &["*", "**", "*=", "**="],
        b'/' => &["/", "/="],
        b'%' => &["%", "%="],
        _ => &[],
    }
}

fn is_going_on(raw: &str) -> bool
    ensures { result ≡ among (chars raw.now) going_on }
{
    match raw.as_bytes().first() {
        Some(&first) => going_on_from(first).contains(&raw),
        None => false,
    }
}

fn is_template(raw: &str) -> bool
    ensures { result ≡ is_backquote (chars raw.now) }
{
    match first(raw) {
        Some('`') => true,
        Some(_) => false,
        None => false,
    }
}

/// The words that stand before the key of a member. What comes behind one is that key, on whichever line it stands.
const PREFIXES: [&str; 3] = ["get", "set", "static"];

fn is_prefix(raw: &str) -> bool
    ensures { result ≡ among (chars raw.now) prefix_words }
{
    PREFIXES.contains(&raw)
}

fn begins_value(raw: &str) -> bool
    ensures { result ≡ among (chars raw.now) (codes "=" ∷ codes "(" ∷ []) }
{
    is_equals(raw) || is_open(raw)
}

/// Whether a token goes on with what stands before it on the line before, the last of which is another token.
fn continues(ending: Ending, last: &str, raw: &str) -> bool
    ensures { result ≡ continues (ending_of ending) (chars last.now) (chars raw.now) }
{
    match ending {
        Ending::Expr => is_going_on(raw) || is_template(raw),
        Ending::Binding => is_equals(raw) || is_comma(raw),
        Ending::Word => false,
        Ending::List => Word::From.is(raw),
        Ending::Block => is_comma(raw),
        Ending::Key => begins_value(raw) || is_prefix(last),
        Ending::Do => false,
    }
}

/// Whether a semicolon may be missing between two tokens, the second of which is neither one nor the text's end.
pub fn lacks(ending: Ending, last: &str, raw: &str, new_line: bool) -> bool
    ensures { result ≡ lacks (ending_of ending) (chars last.now) (chars raw.now) new_line }
{
    matches!(ending, Ending::Do) || is_right_brace(raw) || new_line && !continues(ending, last, raw)
}
