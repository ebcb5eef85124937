//! Notes that point nowhere.

ghost use Rattle.std.specs.Prelude.{ℕ, ◌≡◌, ◌+◌, ◌++◌, map, MatchOption, OnOk, string_bytes};
ghost use Rattle.jsx_diag.specs.Data.{piece_of};
ghost use Rattle.jsx_emit.specs.Layout.{note_lines};
ghost use Rattle.jsx_emit.specs.Page.{message_text, page_text, spaced};
ghost use Rattle.jsx_emit.specs.Texts.{Lined, before_note, hanging, line_break};

use crate::page::header::{colon, push_spaced};
use crate::page::rows::push_blanks;
use jsx_report::{Level, Message};
use std::alloc::AllocError;

/// Adds `= note: message`, whose further lines stand below the message.
pub(super) fn push_note(
    text: &mut String,
    width: usize,
    level: Level,
    message: &[Message],
) -> Result<(), AllocError>
    ensures { OnOk result (string_bytes text.new ≡ string_bytes text.old ++ page_text (note_lines width level (message_text (map piece_of message.now)))) }
{
    push_word(text, width, level)?;
    push_lines(text, width, message)?;
    text.push('\n')
}

// Adds what stands before the message.
fn push_word(text: &mut String, width: usize, level: Level) -> Result<(), AllocError>
    ensures { OnOk result (string_bytes text.new ≡ string_bytes text.old ++ before_note width level) }
{
    let word = level.to_str().unwrap_or("");
    push_blanks(text, width)?;
    text.push_str(" = ")?;
    text.push_str(word)?;
    text.push_str(colon(word))
}

// Adds the lines of a message.
fn push_lines(text: &mut String, width: usize, message: &[Message]) -> Result<(), AllocError>
    ensures { OnOk result (string_bytes text.new ≡ string_bytes text.old ++ hanging (width + 9) (message_text (map piece_of message.now))) }
{
    for piece in message {
        push_piece(text, width, piece.0.as_str())?;
    }
    Ok(())
}

// Adds a text, with blanks before each of its lines but the first.
fn push_piece(text: &mut String, width: usize, more: &str) -> Result<(), AllocError>
    ensures { OnOk result (string_bytes text.new ≡ string_bytes text.old ++ hanging (width + 9) more.now) }
{
    let mut rest = more;
    while let Some((line, behind)) = split_line(rest) {
        push_spaced(text, line)?;
        push_break(text, width)?;
        rest = behind;
    }
    push_spaced(text, rest)
}

// Adds LF, and the blanks before a further line.
fn push_break(text: &mut String, width: usize) -> Result<(), AllocError>
    ensures { OnOk result (string_bytes text.new ≡ string_bytes text.old ++ line_break (width + 9)) }
{
    text.push('\n')?;
    push_blanks(text, width)?;
    text.push_str("         ")
}

// What stands before the first LF of a text, and behind it.
fn split_line(text: &str) -> Option<(&str, &str)>
    ensures { MatchOption result ((n : ℕ) → hanging n text.now ≡ spaced text.now) (λ it. Lined text.now it.0.now it.1.now) }
{
    text.split_once('\n')
}
