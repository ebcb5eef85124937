//! The automaton of strings.

ghost use Rattle.std.specs.Prelude.{◌≡◌};
ghost use Rattle.jsx_base.specs.Token.{step, in_string, escape, InHex, InUnicode, InBraces};
ghost use Rattle.jsx_lex.specs.Automaton.{state_of, quoted_state};

use crate::automaton::{Quoted, State, hex_value, is_hex};

/// A character of the body.
fn in_body(quote: char, c: char) -> State
    ensures { state_of result ≡ in_string quote c }
{
    if c == quote {
        State::Quoted(quote, Quoted::Closed)
    } else if c == '\\' {
        State::Quoted(quote, Quoted::InEscape)
    } else if c == '\n' || c == '\r' {
        State::Dead
    } else {
        State::Quoted(quote, Quoted::InBody)
    }
}

/// The character behind a backslash.
fn in_escape(quote: char, c: char) -> State
    ensures { state_of result ≡ escape quote c }
{
    if c == 'x' {
        State::Quoted(quote, Quoted::InHex(2))
    } else if c == 'u' {
        State::Quoted(quote, Quoted::InUnicode)
    } else if c == '0' {
        State::Quoted(quote, Quoted::BehindNul)
    } else if c.is_ascii_digit() {
        State::Dead
    } else if c == '\r' {
        State::Quoted(quote, Quoted::BehindCr)
    } else {
        State::Quoted(quote, Quoted::InBody)
    }
}

/// One of so many hexadecimal digits that are to come.
fn in_hex(quote: char, count: u8, c: char) -> State
    ensures { state_of result ≡ step (InHex quote count) c }
{
    if count == 0 || !is_hex(c) {
        State::Dead
    } else if count == 1 {
        State::Quoted(quote, Quoted::InBody)
    } else {
        State::Quoted(quote, Quoted::InHex(count - 1))
    }
}

/// The character behind `\u`.
fn in_unicode(quote: char, c: char) -> State
    ensures { state_of result ≡ step (InUnicode quote) c }
{
    if is_hex(c) {
        State::Quoted(quote, Quoted::InHex(3))
    } else if c == '{' {
        State::Quoted(quote, Quoted::InBraces(false, 0))
    } else {
        State::Dead
    }
}

/// A character in the braces of `\u{`.
fn in_braces(quote: char, has_digit: bool, value: u32, c: char) -> State
    ensures { state_of result ≡ step (InBraces quote has_digit value) c }
{
    if let Some(digit) = hex_value(c) {
        let more = u64::from(value) * 16 + u64::from(digit);
        if more <= 0x10_FFFF {
            return State::Quoted(quote, Quoted::InBraces(true, more as u32));
        }
    }
    if has_digit && c == '}' {
        State::Quoted(quote, Quoted::InBody)
    } else {
        State::Dead
    }
}

/// The state a character further.
pub fn quoted_step(quote: char, quoted: Quoted, c: char) -> State
    ensures { state_of result ≡ step (quoted_state quote quoted) c }
{
    match quoted {
        Quoted::InBody => in_body(quote, c),
        Quoted::InEscape => in_escape(quote, c),
        Quoted::InHex(count) => in_hex(quote, count, c),
        Quoted::InUnicode => in_unicode(quote, c),
        Quoted::InBraces(has_digit, value) => in_braces(quote, has_digit, value, c),
        Quoted::BehindNul => {
            if c.is_ascii_digit() {
                State::Dead
            } else {
                in_body(quote, c)
            }
        }
        Quoted::BehindCr => {
            if c == '\n' {
                State::Quoted(quote, Quoted::InBody)
            } else {
                in_body(quote, c)
            }
        }
        Quoted::Closed => State::Dead,
    }
}
