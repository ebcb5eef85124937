//! Suggestions that become labels.

ghost use Rattle.std.specs.Prelude.{◌≡◌, ◌++◌, ◌&&◌, [], None, not, nat_eq, nat_lt, false, map, codes, IfOk, MatchOption, string_bytes};
ghost use Rattle.std.specs.List.{list_any};
ghost use Rattle.std.specs.Option.{option_map};
ghost use Rattle.std.specs.Str.{chars};
ghost use Rattle.jsx_base.specs.MultiSpan.{label_of};
ghost use Rattle.jsx_diag.specs.Data.{edit_of, suggestion_of};
ghost use Rattle.jsx_emit.specs.Layout.{begins_word, code_shown, inline, inline_label, trimmed, words_from};
ghost use Rattle.jsx_emit.specs.Texts.{Follows};

use jsx_base::Span;
use jsx_report::{CodeSuggestion, SubstitutionPart};
use std::alloc::{AllocError, Global};

/// The label that a sole suggestion becomes.
pub(super) fn label_in(
    alloc: Global,
    suggestions: &[CodeSuggestion],
) -> Result<Option<(Span, String)>, AllocError>
    ensures { IfOk result (λ it. option_map label_of it ≡ inline (map suggestion_of suggestions.now)) }
{
    let Some((it, part)) = sole_part(suggestions) else {
        return Ok(None);
    };
    label_for(alloc, it, part)
}

// The suggestion and its part, where there is one of each.
fn sole_part(suggestions: &[CodeSuggestion]) -> Option<(&CodeSuggestion, &SubstitutionPart)>
    ensures { MatchOption result (inline (map suggestion_of suggestions.now) ≡ None) (λ it. inline (map suggestion_of suggestions.now) ≡ inline_label (suggestion_of it.0.now) (edit_of it.1.now)) }
{
    let [it] = suggestions else {
        return None;
    };
    let [way] = it.substitutions.as_slice() else {
        return None;
    };
    let [part] = way.parts.as_slice() else {
        return None;
    };
    Some((it, part))
}

// The label that a suggestion of one part becomes.
fn label_for(
    alloc: Global,
    it: &CodeSuggestion,
    part: &SubstitutionPart,
) -> Result<Option<(Span, String)>, AllocError>
    ensures { IfOk result (λ label. option_map label_of label ≡ inline_label (suggestion_of it.now) (edit_of part.now)) }
{
    if !fits(it.msg.as_str(), part.snippet.as_str()) {
        return Ok(None);
    }
    let label = label_text(
        alloc,
        it.msg.as_str(),
        it.show_code_when_inline,
        part.snippet.as_str(),
    )?;
    Ok(Some((part.span, label)))
}

// Whether a message and a code fit into a label.
fn fits(msg: &str, snippet: &str) -> bool
    ensures { result ≡ (nat_lt (words_from false (chars msg.now)) 10 && not (list_any (λ b. nat_eq b 10) snippet.now)) }
{
    is_brief(msg) && !snippet.as_bytes().contains(&b'\n')
}

// `help: message`, with the code where it is shown.
fn label_text(alloc: Global, msg: &str, is_shown: bool, snippet: &str) -> Result<String, AllocError>
    ensures { IfOk result (λ text. string_bytes text ≡ codes "help: " ++ (msg.now ++ code_shown is_shown (trimmed (chars snippet.now)))) }
{
    let code = snippet.trim();
    if code.is_empty() {
        return plain_label(alloc, msg);
    }
    if !is_shown {
        return plain_label(alloc, msg);
    }
    coded_label(alloc, msg, code)
}

// `help: message`.
fn plain_label(alloc: Global, msg: &str) -> Result<String, AllocError>
    ensures { IfOk result (λ text. string_bytes text ≡ codes "help: " ++ msg.now) }
{
    format!(in alloc; "help: {msg}")
}

// The same, with a code behind it.
fn coded_label(alloc: Global, msg: &str, code: &str) -> Result<String, AllocError>
    ensures { IfOk result (λ text. string_bytes text ≡ codes "help: " ++ (msg.now ++ (codes ": `" ++ (code.now ++ codes "`")))) }
{
    format!(in alloc; "help: {msg}: `{code}`")
}

// Whether a text has fewer than ten words.
fn is_brief(text: &str) -> bool
    ensures { result ≡ nat_lt (words_from false (chars text.now)) 10 }
{
    let mut rest = text;
    let mut inside = false;
    let mut words = 0_usize;
    while let Some((c, behind)) = first(rest) {
        if begins_word(inside, c) {
            if words == 9 {
                return false;
            }
            words += 1;
        }
        inside = !c.is_whitespace();
        rest = behind;
    }
    true
}

fn begins_word(inside: bool, c: char) -> bool
    ensures { result ≡ begins_word inside c }
{
    !inside && !c.is_whitespace()
}

/// The first character and the text behind it.
pub(super) fn first(text: &str) -> Option<(char, &str)>
    ensures { MatchOption result (chars text.now ≡ []) (λ it. Follows text.now it.0 it.1.now) }
{
    let mut chars = text.chars();
    match chars.next() {
        Some(c) => Some((c, chars.as_str())),
        None => None,
    }
}
