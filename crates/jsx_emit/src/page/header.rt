//! Headers.

ghost use Rattle.std.specs.Prelude.{◌≡◌, ◌++◌, map, MatchOption, OnOk, string_bytes};
ghost use Rattle.std.specs.Option.{option_map};
ghost use Rattle.jsx_diag.specs.Data.{code_of, piece_of};
ghost use Rattle.jsx_emit.specs.Layout.{code_text, colon, header};
ghost use Rattle.jsx_emit.specs.Page.{message_text, spaced};
ghost use Rattle.jsx_emit.specs.Texts.{Tabbed};

use jsx_report::{DiagnosticId, Level, Message};
use std::alloc::AllocError;

/// Adds `error[CODE]: message`, with tabs as four blanks.
pub(super) fn push_header(
    text: &mut String,
    level: Level,
    code: &Option<DiagnosticId>,
    message: &[Message],
) -> Result<(), AllocError>
    ensures { OnOk result (string_bytes text.new ≡ string_bytes text.old ++ spaced (header level (option_map code_of code.now) (message_text (map piece_of message.now)))) }
{
    let word = level.to_str().unwrap_or("");
    text.push_str(word)?;
    push_code(text, code)?;
    text.push_str(colon(word))?;
    push_message(text, message)
}

// Adds a code in brackets, if it is one of errors.
fn push_code(text: &mut String, code: &Option<DiagnosticId>) -> Result<(), AllocError>
    ensures { OnOk result (string_bytes text.new ≡ string_bytes text.old ++ spaced (code_text (option_map code_of code.now))) }
{
    let Some(DiagnosticId::Error(code)) = code else {
        return Ok(());
    };
    text.push_str("[")?;
    push_spaced(text, code.as_str())?;
    text.push_str("]")
}

/// What stands behind a word, where there is one.
pub(super) fn colon(word: &str) -> &'static str
    ensures { result.now ≡ colon word.now }
{
    if word.is_empty() { "" } else { ": " }
}

// Adds the text of a message, with tabs as four blanks.
fn push_message(text: &mut String, message: &[Message]) -> Result<(), AllocError>
    ensures { OnOk result (string_bytes text.new ≡ string_bytes text.old ++ spaced (message_text (map piece_of message.now))) }
{
    for piece in message {
        push_spaced(text, piece.0.as_str())?;
    }
    Ok(())
}

/// Adds a text with its tabs as four blanks.
pub(super) fn push_spaced(text: &mut String, more: &str) -> Result<(), AllocError>
    ensures { OnOk result (string_bytes text.new ≡ string_bytes text.old ++ spaced more.now) }
{
    let mut rest = more;
    while let Some((front, behind)) = split_tab(rest) {
        text.push_str(front)?;
        text.push_str("    ")?;
        rest = behind;
    }
    text.push_str(rest)
}

// What stands before the first tab of a text, and behind it.
fn split_tab(text: &str) -> Option<(&str, &str)>
    ensures { MatchOption result (spaced text.now ≡ text.now) (λ it. Tabbed text.now it.0.now it.1.now) }
{
    text.split_once('\t')
}
