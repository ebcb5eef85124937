//! String literals of made texts (ECMA-262 section 12.9.4).

ghost use Rattle.std.specs.Prelude.{◌≡◌, ◌<◌, ◌++◌, ◌/◌, ◌%◌, IfOk, OnOk, IsTrue, string_bytes, [], ◌∷◌};
ghost use Rattle.std.specs.Str.{chars};
ghost use Rattle.react_compile.specs.Made.{is_ascii, escaped, hex_digit, quoted};

use std::alloc::{AllocError, Global};

/// A character.
#[tactic(auto, using(crate::proofs::Characters::pushed))]
fn put(literal: &mut String, c: char) -> Result<(), AllocError>
    ensures { OnOk result (chars (string_bytes literal.new) ≡ chars (string_bytes literal.old) ++ c ∷ []) }
{
    literal.push(c)?;
    Ok(())
}

/// An escape.
#[tactic(auto, using(crate::proofs::Characters::appended_ascii))]
fn put_escape(literal: &mut String, escape: &str) -> Result<(), AllocError>
    requires { IsTrue (is_ascii escape.now) }
    ensures { OnOk result (chars (string_bytes literal.new) ≡ chars (string_bytes literal.old) ++ escape.now) }
{
    literal.push_str(escape)?;
    Ok(())
}

/// A digit of a hexadecimal number, in small letters.
fn hex_digit(digit: u32) -> char
    requires { digit < 16 }
    ensures { result ≡ hex_digit digit }
{
    if digit < 10 {
        (b'0' + digit as u8) as char
    } else {
        (b'a' + (digit as u8 - 10)) as char
    }
}

/// The escape of a control character.
fn put_control(literal: &mut String, c: char) -> Result<(), AllocError>
    requires { c < 128 }
    ensures { OnOk result (chars (string_bytes literal.new) ≡ chars (string_bytes literal.old) ++ 92 ∷ 120 ∷ hex_digit (c / 16) ∷ hex_digit (c % 16) ∷ []) }
{
    put(literal, '\\')?;
    put(literal, 'x')?;
    put(literal, hex_digit(c as u32 / 16))?;
    put(literal, hex_digit(c as u32 % 16))
}

/// A character as it stands in a literal.
fn put_escaped(literal: &mut String, c: char) -> Result<(), AllocError>
    ensures { OnOk result (chars (string_bytes literal.new) ≡ chars (string_bytes literal.old) ++ escaped c) }
{
    if c == '"' || c == '\\' {
        put(literal, '\\')?;
        put(literal, c)
    } else if c == '\n' {
        put_escape(literal, "\\n")
    } else if c == '\r' {
        put_escape(literal, "\\r")
    } else if c == '\t' {
        put_escape(literal, "\\t")
    } else if c == '\u{2028}' {
        put_escape(literal, "\\u2028")
    } else if c == '\u{2029}' {
        put_escape(literal, "\\u2029")
    } else if c < ' ' || c == '\x7f' {
        put_control(literal, c)
    } else {
        put(literal, c)
    }
}

/// The literal whose value is a text.
///
/// # Errors
///
/// `AllocError` for want of memory.
pub(crate) fn quoted(alloc: Global, text: &str) -> Result<String, AllocError>
    ensures { IfOk result (λ literal. chars (string_bytes literal) ≡ quoted (chars text.now)) }
{
    let mut literal = String::new(alloc);
    put(&mut literal, '"')?;
    for c in text.chars() {
        put_escaped(&mut literal, c)?;
    }
    put(&mut literal, '"')?;
    Ok(literal)
}
