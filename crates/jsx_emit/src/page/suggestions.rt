//! The suggestions that stand apart.

ghost use Rattle.std.specs.Prelude.{◌≡◌, [], ◌∷◌, ◌+◌, ◌++◌, false, cond, map, IfOk, OnOk, MatchOption, string_bytes};
ghost use Rattle.std.specs.List.{list_all};
ghost use Rattle.std.specs.Option.{is_none, option_map};
ghost use Rattle.std.specs.Str.{chars};
ghost use Rattle.jsx_base.specs.LineStarts.{Split};
ghost use Rattle.jsx_base.specs.Lines.{lines};
ghost use Rattle.jsx_base.specs.SpanPlaces.{high, low};
ghost use Rattle.jsx_diag.specs.Data.{edit_of, suggestion_of};
ghost use Rattle.jsx_diag.specs.Splice.{fault, spliced_data};
ghost use Rattle.jsx_emit.specs.Parts.{SuggestionsOver};
ghost use Rattle.jsx_emit.specs.Shows.{Each, SuggestionPart};
ghost use Rattle.jsx_emit.specs.Page.{blanks, rows_text};
ghost use Rattle.jsx_emit.specs.Written.{help_grid, in_turn, set_in, shown_ways};
ghost use Rattle.jsx_diag.specs.declared.level.Style.TheVariants.{NoStyle};
ghost use Rattle.jsx_draw.specs.Grid.{in_style};

use crate::page::Look;
use crate::page::header::push_spaced;
use crate::page::rows::{push_blanks, push_rows};
use crate::page::ways::draw_ways;
use jsx_base::{SourceMapper, Span};
use jsx_diag::SpliceError;
use jsx_draw::{StyledBuffer, sum};
use jsx_report::{CodeSuggestion, Style, SubstitutionPart};
use std::alloc::{AllocError, Global};

/// The texts of suggestions, one after another.
pub(super) fn suggestions_text<M: SourceMapper>(
    alloc: Global,
    cm: Option<&M>,
    look: Look,
    width: usize,
    suggestions: &[CodeSuggestion],
) -> Result<String, AllocError>
    ensures { IfOk result (λ text. SuggestionsOver look.ui_testing (option_map (λ cm. record { files = M.files cm.now; call_span = M.call_span cm.now; offset_line = M.offset_line cm.now }) cm.entry) width (map suggestion_of suggestions.now) (string_bytes text)) }
{
    let Some(cm) = cm else {
        return Ok(String::new(alloc));
    };
    all_texts(alloc, cm, look, width, suggestions)
}

// The same over these files.
fn all_texts<M: SourceMapper>(
    alloc: Global,
    cm: &M,
    look: Look,
    width: usize,
    suggestions: &[CodeSuggestion],
) -> Result<String, AllocError>
    ensures { IfOk result (λ text. Each (SuggestionPart look.ui_testing (M.files cm.now) width) (map suggestion_of suggestions.now) (string_bytes text)) }
{
    let mut text = String::new(alloc);
    for it in suggestions {
        let part = suggestion_text(alloc, cm, look, width, it)?;
        text.push_str(part.as_str())?;
    }
    Ok(text)
}

// The text of a suggestion: its message, and the lines that it writes.
fn suggestion_text<M: SourceMapper>(
    alloc: Global,
    cm: &M,
    look: Look,
    width: usize,
    it: &CodeSuggestion,
) -> Result<String, AllocError>
    ensures { IfOk result (λ text. SuggestionPart look.ui_testing (M.files cm.now) width (suggestion_of it.now) (string_bytes text)) }
{
    let mut buffer = help_buffer(alloc, width, it.msg.as_str())?;
    let ways = ways_of(alloc, cm, it)?;
    draw_ways(alloc, &mut buffer, cm, look, width, &ways)?;
    let mut text = String::new(alloc);
    push_rows(&mut text, &mut buffer)?;
    Ok(text)
}

// `help: message`, whose further lines stand behind blanks, in rows.
fn help_buffer(alloc: Global, width: usize, msg: &str) -> Result<StyledBuffer, AllocError>
    ensures { IfOk result (λ buffer. buffer ≡ help_grid width (lines (chars msg.now))) }
{
    let mut buffer = StyledBuffer::new(alloc);
    let Some((line, rest)) = split_line(msg) else {
        draw_row(&mut buffer, "help: ", msg)?;
        return Ok(buffer);
    };
    draw_row(&mut buffer, "help: ", line)?;
    draw_further(alloc, &mut buffer, width, rest)?;
    Ok(buffer)
}

// Adds a row of two texts to a grid.
fn draw_row(buffer: &mut StyledBuffer, before: &str, line: &str) -> Result<(), AllocError>
    ensures { OnOk result (buffer.new ≡ buffer.old ++ in_style NoStyle (chars before.now ++ chars line.now) ∷ []) }
{
    let row = buffer.num_lines();
    buffer.prepend(row, line, Style::NoStyle)?;
    buffer.prepend(row, before, Style::NoStyle)
}

// Adds the further lines of a message.
fn draw_further(
    alloc: Global,
    buffer: &mut StyledBuffer,
    width: usize,
    more: &str,
) -> Result<(), AllocError>
    ensures { OnOk result (buffer.new ≡ buffer.old ++ map (in_style NoStyle) (set_in (width + 15) (lines (chars more.now)))) }
{
    let indent = blanks_text(alloc, sum(width, 15)?)?;
    let mut rest = more;
    while let Some((line, behind)) = split_line(rest) {
        draw_row(buffer, indent.as_str(), line)?;
        rest = behind;
    }
    draw_row(buffer, indent.as_str(), rest)
}

// So many blanks.
fn blanks_text(alloc: Global, n: usize) -> Result<String, AllocError>
    ensures { IfOk result (λ text. string_bytes text ≡ blanks n) }
{
    let mut text = String::new(alloc);
    push_blanks(&mut text, n)?;
    Ok(text)
}

/// Adds a row of two texts.
pub(super) fn push_row(text: &mut String, before: &str, line: &str) -> Result<(), AllocError>
    ensures { OnOk result (string_bytes text.new ≡ string_bytes text.old ++ rows_text ((chars before.now ++ chars line.now) ∷ [])) }
{
    push_spaced(text, before)?;
    push_spaced(text, line)?;
    text.push('\n')
}

/// The first line of a text and what stands behind it, if there is another line.
pub(super) fn split_line(text: &str) -> Option<(&str, &str)>
    ensures { MatchOption result (lines (chars text.now) ≡ chars text.now ∷ []) (λ it. Split text.now it.0.now it.1.now) }
{
    text.split_once('\n')
}

// The lines that a suggestion writes in each way: in none where they are refused or parts overlap.
fn ways_of<M: SourceMapper>(
    alloc: Global,
    cm: &M,
    it: &CodeSuggestion,
) -> Result<Vec<(String, Vec<SubstitutionPart>)>, AllocError>
    ensures { IfOk result (λ ways. map spliced_data ways.items ≡ shown_ways (M.files cm.now) (suggestion_of it.now)) }
{
    match it.splice_lines(alloc, cm) {
        Ok(ways) => Ok(unless_overlapping(alloc, ways)),
        Err(error) => none_for(alloc, error),
    }
}

// No way where the lines are refused, but for want of memory.
fn none_for(
    alloc: Global,
    error: SpliceError,
) -> Result<Vec<(String, Vec<SubstitutionPart>)>, AllocError>
    ensures none { IfOk result (λ ways. ways.items ≡ []) }
    ensures refused { IfOk result (λ _. is_none (fault error) ≡ false) }
{
    match error {
        SpliceError::NoSubstitutions => Ok(Vec::new(alloc)),
        SpliceError::NoParts => Ok(Vec::new(alloc)),
        SpliceError::OtherFile => Ok(Vec::new(alloc)),
        SpliceError::Memory => Err(AllocError),
    }
}

// All ways, or none where parts of one overlap.
fn unless_overlapping(
    alloc: Global,
    ways: Vec<(String, Vec<SubstitutionPart>)>,
) -> Vec<(String, Vec<SubstitutionPart>)>
    ensures { result.items ≡ cond (list_all (λ way. in_turn ((spliced_data way).parts)) ways.items) ways.items [] }
{
    if all_in_turn(&ways) {
        ways
    } else {
        Vec::new(alloc)
    }
}

// Whether the parts of no way overlap.
fn all_in_turn(ways: &[(String, Vec<SubstitutionPart>)]) -> bool
    ensures { result ≡ list_all (λ way. in_turn ((spliced_data way).parts)) ways.now }
{
    for way in ways {
        if !in_turn(&way.1) {
            return false;
        }
    }
    true
}

// Whether no part begins before the one before it ends.
fn in_turn(parts: &[SubstitutionPart]) -> bool
    ensures { result ≡ in_turn (map edit_of parts.now) }
{
    let mut end = 0;
    for part in parts {
        if low(part.span) < end {
            return false;
        }
        end = high(part.span);
    }
    true
}

/// The lower end of a span.
pub(super) fn low(span: Span) -> u32
    ensures { result ≡ low span }
{
    span.lo.0.min(span.hi.0)
}

/// The higher end of a span.
pub(super) fn high(span: Span) -> u32
    ensures { result ≡ high span }
{
    span.lo.0.max(span.hi.0)
}
