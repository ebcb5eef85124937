//! The specifiers of imports and exports (ECMA-262 sections 16.2.2 and 16.2.3).

ghost use Rattle.std.specs.Prelude.{◌≡◌, ◌<◌, IfOk, OnOk, MatchOption, map, true, false};
ghost use Rattle.jsx_tree.specs.Kinds as kinds;
ghost use Rattle.jsx_tree.specs.Kinds.{list, none, part};
ghost use Rattle.jsx_tree.specs.Nonterminals.{word_in};
ghost use Rattle.jsx_tree.specs.Grammar.{only};
ghost use Rattle.jsx_tree.specs.StaticRules.{all_of};
ghost use Rattle.jsx_tree.specs.Told.{told_list, told_specifier};
ghost use Rattle.jsx_tree.specs.View.{forest, text_of};
ghost use Rattle.jsx_tree.specs.ViewProgram.{view_specifier};
ghost use Rattle.jsx_tree.specs.Answers.{OnlyRow, NoRow};
ghost use Rattle.jsx_token.specs.Here.{place_of, left};
ghost use Rattle.jsx_operand.specs.Around.{around_of};
ghost use Rattle.jsx_operand.specs.SoFar.{so_far};
ghost use Rattle.jsx_operand.specs.Answers.{Refused};
ghost use Rattle.jsx_operand.specs.Spans.{IsPlaced, IsPlacedFront};
ghost use Rattle.jsx_syntax.specs.Specifiers.{NoSpecifier, OnlySpecifier, fits, side_of, specifier_row, specifier_symbols, written};

use jsx_base::BytePos;
use jsx_operand::parser::identifier_name;
use jsx_operand::{Context, ParseError, expect, span_to};
use jsx_token::{Fixed, Lexer, Word, is_bound, is_reserved};
use jsx_tree::{Specifier, Text};

/// A list of specifiers of which the one name of each is the module's own.
#[derive(Clone, Copy)]
pub(crate) enum Side {
    /// `import { a, b as c } from "m"`: `a` and `c` are bound.
    Imported,
    /// `export { a, b as c }`: `a` and `b` are referred to.
    Exported,
}

/// Whether a name may be one of the module's own.
fn may_be_own(side: Side, name: &Text) -> bool
    ensures { result ≡ word_in (only (side_of side)) (text_of name.now) }
{
    let raw = match name {
        Text::Read(raw, _) => raw,
        Text::Made(made, _) => made.as_str(),
    };
    match side {
        Side::Imported => is_bound(raw),
        Side::Exported => !is_reserved(raw),
    }
}

/// Where a name stands.
fn place(name: &Text) -> BytePos {
    match name {
        Text::Read(_, place) => *place,
        Text::Made(_, place) => place.unwrap_or(BytePos(0)),
    }
}

/// The name of a specifier that is the module's own.
fn own<'a, 's>(side: Side, specifier: &'a Specifier<'s>) -> &'a Text<'s>
    ensures { word_in (only (side_of side)) (text_of result.now) ≡ fits (side_of side) (view_specifier kinds.From specifier.now) }
{
    match specifier {
        Specifier::Same(_, name) => name,
        Specifier::As(_, outer, inner) => match side {
            Side::Imported => inner,
            Side::Exported => outer,
        },
    }
}

/// Where the first name stands that is the module's own and may not be: reserved, or `eval` in an import.
pub(crate) fn misfit(side: Side, specifiers: &[Specifier]) -> Option<BytePos>
    ensures { MatchOption result (all_of (fits (side_of side)) (written specifiers.now) ≡ true) (λ _. all_of (fits (side_of side)) (written specifiers.now) ≡ false) }
{
    for (i, specifier) in specifiers.iter().enumerate() {
        let name = own(side, specifier);
        if !may_be_own(side, name) {
            return Some(place(name));
        }
    }
    None
}

/// A specifier: `a`, or `a as b`, where both are any names.
fn specifier<'s>(context: Context, lexer: &mut Lexer<'s>) -> Result<Specifier<'s>, ParseError>
    ensures read { IfOk result (λ s. OnlySpecifier (around_of context.entry.around) (place_of lexer.old) (view_specifier kinds.From s) (place_of lexer.new)) }
    ensures placed { IfOk result (λ s. (side : kinds.Side) → IsPlaced (told_specifier s) (view_specifier side s) lexer.old lexer.new) }
    ensures shorter { OnOk result (left lexer.new < left lexer.old) }
    ensures refused { Refused context.entry.levels result (NoSpecifier (around_of context.entry.around) (place_of lexer.old)) }
{
    let raw = identifier_name(context, lexer)?;
    let lo = lexer.last_place();
    let name = Text::Read(raw, lo);
    if !lexer.take(Fixed::Word(Word::As)) {
        return Ok(Specifier::Same(span_to(lo, lexer), name));
    }
    let raw = identifier_name(context, lexer)?;
    let other = Text::Read(raw, lexer.last_place());
    Ok(Specifier::As(span_to(lo, lexer), name, other))
}

/// The specifiers of a list behind its `{`, with the `}`: `a, b as c }`. Which names may stand there only what is behind it tells:
/// `export { if } from "m"`, not `export { if };`.
pub(crate) fn specifiers<'s>(
    context: Context,
    lexer: &mut Lexer<'s>,
) -> Result<Vec<Specifier<'s>>, ParseError>
    ensures read { IfOk result (λ v. OnlyRow so_far (around_of context.entry.around) (specifier_row kinds.From) (place_of lexer.old) (part (list (written v.items)) none) (place_of lexer.new)) }
    ensures placed { IfOk result (λ v. (side : kinds.Side) → IsPlacedFront (specifier_symbols side) (told_list (map told_specifier v.items)) (list (forest (map (view_specifier side) v.items))) lexer.old lexer.new) }
    ensures shorter { OnOk result (left lexer.new < left lexer.old) }
    ensures refused { Refused context.entry.levels result (NoRow so_far (around_of context.entry.around) (specifier_row kinds.From) (place_of lexer.old)) }
{
    let mut all = Vec::new(context.alloc);
    'specifiers: while !lexer.take(Fixed::CloseBrace) {
        let next = specifier(context, lexer)?;
        all.push(next)?;
        if !lexer.take(Fixed::Comma) {
            expect(context, lexer, Fixed::CloseBrace)?;
            return Ok(all);
        }
    }
    Ok(all)
}
