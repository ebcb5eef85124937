//! The links of optional chains (ECMA-262 section 13.3.9).

ghost use Rattle.std.specs.Prelude.{◌≡◌, ◌<◌, IfNone, IfOk, IfSome, IsTrue, OnOk, false};
ghost use Rattle.jsx_tree.specs.Kinds.{NameLink, expression};
ghost use Rattle.jsx_tree.specs.Nonterminals as grammar;
ghost use Rattle.jsx_tree.specs.Grammar.{Part};
ghost use Rattle.jsx_tree.specs.Reading.{forth};
ghost use Rattle.jsx_tree.specs.Told.{told_link};
ghost use Rattle.jsx_tree.specs.View.{is_optional, view_link};
ghost use Rattle.jsx_tree.specs.Walk.{tail};
ghost use Rattle.jsx_tree.specs.Answers.{Barred, Built};
ghost use Rattle.jsx_token.specs.Growths.{lead, settled};
ghost use Rattle.jsx_token.specs.Here.{left, place_of};
ghost use Rattle.jsx_token.specs.Marks.{row_so_far};
ghost use Rattle.jsx_token.specs.Places.{Takes, begin_of, next_of};
ghost use Rattle.jsx_operand.specs.Answers.{Refused};
ghost use Rattle.jsx_operand.specs.Around.{around_of};
ghost use Rattle.jsx_operand.specs.Links.{NoLink, link_sign};
ghost use Rattle.jsx_operand.specs.SoFar.{so_far};
ghost use Rattle.jsx_operand.specs.Spans.{IsPlacedBehind};

use crate::around::Context;
use crate::error::ParseError;
use crate::parser::{identifier_name, span_to};
use jsx_make::make;
use jsx_token::{Fixed, Lexer};
use jsx_tree::{Link, LinkForm, Text};

/// With what a link begins.
#[derive(Clone, Copy)]
pub enum Linking {
    /// `?.`
    Optional,
    /// `.`
    Name,
    /// `[`
    Index,
    /// `(`
    Call,
}

/// Takes the next token if a link begins with it.
pub fn take_link(lexer: &mut Lexer) -> Option<Linking>
    ensures taken { IfSome result (λ s. place_of lexer.new ≡ forth (link_sign s) (place_of lexer.old)) }
    ensures takes { IfSome result (λ s. Takes (link_sign s) lexer.old lexer.new) }
    ensures begins { IfSome result (λ _. begin_of lexer.new ≡ next_of lexer.old) }
    ensures shorter { IfSome result (λ _. left lexer.new < left lexer.old) }
    ensures missing { IfNone result (NoLink (place_of lexer.old)) }
    ensures stays { IfNone result (lexer.new ≡ lexer.old) }
{
    if lexer.take(Fixed::QuestionDot) {
        return Some(Linking::Optional);
    }
    if lexer.take(Fixed::Dot) {
        return Some(Linking::Name);
    }
    if lexer.take(Fixed::OpenBracket) {
        return Some(Linking::Index);
    }
    if lexer.take(Fixed::Open) {
        return Some(Linking::Call);
    }
    None
}

/// A link behind its `?.` or `.`: `?.a`, `.a`.
pub fn name_link<'s>(
    context: Context,
    lexer: &mut Lexer<'s>,
    form: LinkForm,
) -> Result<Box<Link<'s>>, ParseError>
    ensures read { IfOk result (λ l. Built so_far (around_of context.entry.around) (tail (row_so_far (expression (NameLink false)))) (expression (NameLink (is_optional form))) (λ ts. ts) (view_link l.value) (place_of lexer.old) (place_of lexer.new)) }
    ensures placed { IfOk result (λ l. IsPlacedBehind (lead (row_so_far (expression (NameLink (is_optional form))))) lexer.old (told_link l.value) (view_link l.value) lexer.new) }
    ensures shorter { OnOk result (left lexer.new < left lexer.old) }
    ensures ended { OnOk result (IsTrue (settled (place_of lexer.new))) }
    ensures refused { Refused context.entry.levels result (Barred so_far (around_of context.entry.around) (Part grammar.Name) (place_of lexer.old)) }
{
    let lo = lexer.last_place();
    let raw = identifier_name(context, lexer)?;
    let name = Text::Read(raw, lexer.last_place());
    Ok(make::name_link(context.alloc, span_to(lo, lexer), form, name)?)
}
