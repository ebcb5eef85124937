//! What suggestions write.

use crate::tests::text;
use crate::{Applicability, CodeSuggestion, SpliceError, Substitution, SubstitutionPart};
use jsx_base::{BytePos, FileName, Globals, SourceMap, Span};
use std::alloc::{AllocError, Global};
use std::test::Fail;

// A file whose first byte has place 1, and one behind it.
fn files(alloc: Global, first: &str) -> Result<SourceMap, Fail> {
    let mut map = SourceMap::new(alloc);
    let mut globals = Globals::new();
    map.new_source_file(&mut globals, FileName::Anon, text(alloc, first)?)?;
    map.new_source_file(&mut globals, FileName::Anon, text(alloc, "other")?)?;
    Ok(map)
}

// Texts in place of what stands between two places.
fn way(alloc: Global, parts: &[(u32, u32, &str)]) -> Result<Substitution, AllocError> {
    let mut way = Substitution {
        parts: Vec::new(alloc),
    };
    for (lo, hi, snippet) in parts {
        way.parts.push(SubstitutionPart {
            span: Span::new(BytePos(*lo), BytePos(*hi)),
            snippet: text(alloc, snippet)?,
        })?;
    }
    Ok(way)
}

fn suggestion(
    alloc: Global,
    substitutions: Vec<Substitution>,
) -> Result<CodeSuggestion, AllocError> {
    Ok(CodeSuggestion {
        substitutions,
        msg: text(alloc, "m")?,
        show_code_when_inline: true,
        applicability: Applicability::Unspecified,
    })
}

fn one_way(alloc: Global, parts: &[(u32, u32, &str)]) -> Result<CodeSuggestion, AllocError> {
    suggestion(alloc, vec![in alloc; way(alloc, parts)?]?)
}

// Whether the parts write this text.
fn writes(
    alloc: Global,
    map: &SourceMap,
    parts: &[(u32, u32, &str)],
    want: &str,
) -> Result<bool, AllocError> {
    let suggestion = one_way(alloc, parts)?;
    Ok(match suggestion.splice_lines(alloc, map) {
        Ok(texts) => texts.len() == 1 && texts[0].0.as_str() == want,
        Err(_) => false,
    })
}

fn one_line_is_written(alloc: Global, map: &SourceMap) -> Result<bool, AllocError> {
    Ok(
        writes(alloc, map, &[(9, 10, "c")], "let a = c;")?
            && writes(alloc, map, &[(9, 10, "y"), (5, 6, "x")], "let x = y;")?
            && writes(alloc, map, &[(5, 5, "x"), (5, 5, "y")], "let xya = b;")?,
    )
}

fn lines_are_written(alloc: Global, map: &SourceMap) -> Result<bool, AllocError> {
    Ok(
        writes(alloc, map, &[(2, 9, "-")], "a-f")?
            && writes(alloc, map, &[(1, 2, "x\n\n")], "x")?
            && writes(alloc, map, &[(1, 2, "x"), (8, 9, "y")], "x\u{e9}\ncd\nyf")?,
    )
}

#[test]
fn lines_of_a_suggestion_are_written(rt: HostRuntime) -> Result<(), Fail> {
    let map = files(rt.alloc(), "let a = b;")?;
    assert!(rt; one_line_is_written(rt.alloc(), &map) == Ok(true));
    let map = files(rt.alloc(), "a\u{e9}\ncd\nef")?;
    assert!(rt; lines_are_written(rt.alloc(), &map) == Ok(true));
    Ok(())
}

// Whether a suggestion is refused like this.
fn refuses(
    alloc: Global,
    map: &SourceMap,
    ways: Vec<Substitution>,
    want: SpliceError,
) -> Result<bool, AllocError> {
    let suggestion = suggestion(alloc, ways)?;
    Ok(match suggestion.splice_lines(alloc, map) {
        Ok(_) => false,
        Err(error) => error == want,
    })
}

fn outside_and_empty(alloc: Global) -> Result<Vec<Substitution>, AllocError> {
    Ok(vec![in alloc; way(alloc, &[(0, 1, "x")])?, way(alloc, &[])?]?)
}

fn two_files(alloc: Global) -> Result<Vec<Substitution>, AllocError> {
    Ok(vec![in alloc; way(alloc, &[(1, 2, "x"), (5, 6, "y")])?]?)
}

fn are_refused(alloc: Global, map: &SourceMap) -> Result<bool, AllocError> {
    Ok(
        refuses(alloc, map, Vec::new(alloc), SpliceError::NoSubstitutions)?
            && refuses(alloc, map, outside_and_empty(alloc)?, SpliceError::NoParts)?
            && refuses(alloc, map, two_files(alloc)?, SpliceError::OtherFile)?,
    )
}

#[test]
fn suggestions_without_lines_are_refused(rt: HostRuntime) -> Result<(), Fail> {
    let map = files(rt.alloc(), "abc")?;
    assert!(rt; are_refused(rt.alloc(), &map) == Ok(true));
    Ok(())
}
