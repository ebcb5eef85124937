//! What the productions of the grammar have in common: tokens, names and places.

ghost use Rattle.std.specs.Prelude.{◌≡◌, ◌<◌, ◌≤◌, IfOk, OnOk};
ghost use Rattle.std.specs.Str.{chars};
ghost use Rattle.jsx_base.specs.Token.{IdentifierName, JsxName, Operator, StringLiteral, Tag};
ghost use Rattle.jsx_tree.specs.Signs.{Semicolon, Tok};
ghost use Rattle.jsx_tree.specs.Spans.{Comes};
ghost use Rattle.jsx_tree.specs.Told.{told_pat, told_text};
ghost use Rattle.jsx_tree.specs.Kinds.{leaf};
ghost use Rattle.jsx_tree.specs.Nonterminals as grammar;
ghost use Rattle.jsx_tree.specs.View.{name_of, text_of, view_pat};
ghost use Rattle.jsx_token.specs.Here.{place_of, left, sign_of};
ghost use Rattle.jsx_tree.specs.Grammar.{Part, semi};
ghost use Rattle.jsx_tree.specs.Grammar as symbol;
ghost use Rattle.jsx_tree.specs.Walk.{nothing, one};
ghost use Rattle.jsx_tree.specs.Answers.{Only, Barred};
ghost use Rattle.jsx_operand.specs.Around.{around_of};
ghost use Rattle.jsx_operand.specs.SoFar.{so_far};
ghost use Rattle.jsx_operand.specs.Answers.{Refused};
ghost use Rattle.jsx_make.specs.NodeSpans.{pat_at};
ghost use Rattle.jsx_operand.specs.Spans.{FailsAt, IsPlaced, Spans};
ghost use Rattle.jsx_token.specs.Places.{Takes, begin_of, end_of, next_of};

use crate::around::Context;
use crate::depth::counted;
use crate::error::ParseError;
use jsx_base::{BytePos, Span};
use jsx_make::make;
use jsx_token::{Fixed, Leaf, Lexer, is_bound, is_plain_tag};
use jsx_tree::{Ident, Pat, Text};

/// From a place to the end of the token that was taken last.
pub fn span_to(lo: BytePos, lexer: &Lexer) -> Option<Span>
    ensures { Spans result lo.0 (end_of lexer.now) }
{
    let hi = lexer.place();
    Some(Span { lo, hi })
}

/// The error at the token that was looked at last, or taken.
pub fn give_up(lexer: &Lexer) -> ParseError
    ensures { FailsAt result lexer.now }
{
    ParseError::Syntax(lexer.failing_place())
}

/// Takes a token with one spelling.
pub fn expect(context: Context, lexer: &mut Lexer, fixed: Fixed) -> Result<(), ParseError>
    ensures read { IfOk result (λ _. Only so_far (around_of context.entry.around) (symbol.Fixed (sign_of fixed)) (place_of lexer.old) nothing (place_of lexer.new)) }
    ensures takes { OnOk result (Takes (sign_of fixed) lexer.old lexer.new) }
    ensures begins { OnOk result (begin_of lexer.new ≡ next_of lexer.old) }
    ensures shorter { OnOk result (left lexer.new < left lexer.old) }
    ensures refused { Refused context.entry.levels result (Barred so_far (around_of context.entry.around) (symbol.Fixed (sign_of fixed)) (place_of lexer.old)) }
{
    if lexer.take(fixed) {
        Ok(())
    } else {
        Err(give_up(lexer))
    }
}

/// Takes a semicolon, or nothing where it may be missing (ECMA-262 section 12.10).
pub fn semicolon(context: Context, lexer: &mut Lexer) -> Result<(), ParseError>
    ensures read { IfOk result (λ _. Only so_far (around_of context.entry.around) semi (place_of lexer.old) nothing (place_of lexer.new)) }
    ensures takes { OnOk result (Takes Semicolon lexer.old lexer.new) }
    ensures within { OnOk result (left lexer.new ≤ left lexer.old) }
    ensures refused { Refused context.entry.levels result (Barred so_far (around_of context.entry.around) semi (place_of lexer.old)) }
{
    if lexer.semicolon() {
        Ok(())
    } else {
        Err(give_up(lexer))
    }
}

/// A name that is bound, as a pattern (ECMA-262 section 13.1).
pub fn binding_identifier<'s>(
    context: Context,
    lexer: &mut Lexer<'s>,
) -> Result<Box<Pat<'s>>, ParseError>
    ensures read { IfOk result (λ p. Only so_far (around_of context.entry.around) (Part grammar.BindingIdent) (place_of lexer.old) (one (view_pat p.value)) (place_of lexer.new)) }
    ensures span { IfOk result (λ p. Spans (pat_at p.value) (next_of lexer.old) (end_of lexer.new)) }
    ensures placed { IfOk result (λ p. IsPlaced (told_pat p.value) (view_pat p.value) lexer.old lexer.new) }
    ensures begins { OnOk result (begin_of lexer.new ≡ next_of lexer.old) }
    ensures shorter { OnOk result (left lexer.new < left lexer.old) }
    ensures refused { Refused context.entry.levels result (Barred so_far (around_of context.entry.around) (Part grammar.BindingIdent) (place_of lexer.old)) }
{
    let Some(raw) = lexer.leaf(Leaf::Name) else {
        return Err(give_up(lexer));
    };
    if !is_bound(raw) {
        return Err(give_up(lexer));
    }
    counted(context, lexer)?;
    let lo = lexer.last_place();
    let text = Text::Read(raw, lo);
    Ok(make::bound_name(context.alloc, span_to(lo, lexer), Ident { text })?)
}

/// A name that is bound, as the name of a function (ECMA-262 section 13.1).
pub fn bound_name<'s>(context: Context, lexer: &mut Lexer<'s>) -> Result<Ident<'s>, ParseError>
    ensures read { IfOk result (λ a. Only so_far (around_of context.entry.around) (Part grammar.BindingIdent) (place_of lexer.old) (one (name_of a)) (place_of lexer.new)) }
    ensures placed { IfOk result (λ a. IsPlaced (told_text a.text) (name_of a) lexer.old lexer.new) }
    ensures begins { OnOk result (begin_of lexer.new ≡ next_of lexer.old) }
    ensures shorter { OnOk result (left lexer.new < left lexer.old) }
    ensures refused { Refused context.entry.levels result (Barred so_far (around_of context.entry.around) (Part grammar.BindingIdent) (place_of lexer.old)) }
{
    let Some(raw) = lexer.leaf(Leaf::Name) else {
        return Err(give_up(lexer));
    };
    if !is_bound(raw) {
        return Err(give_up(lexer));
    }
    counted(context, lexer)?;
    let text = Text::Read(raw, lexer.last_place());
    Ok(Ident { text })
}

/// A string, as the specifier of a module (ECMA-262 section 12.9.4).
pub fn string<'s>(context: Context, lexer: &mut Lexer<'s>) -> Result<Text<'s>, ParseError>
    ensures read { IfOk result (λ t. Only so_far (around_of context.entry.around) (Part grammar.StringOnly) (place_of lexer.old) (one (leaf StringLiteral (text_of t))) (place_of lexer.new)) }
    ensures placed { IfOk result (λ t. IsPlaced (told_text t) (leaf StringLiteral (text_of t)) lexer.old lexer.new) }
    ensures begins { OnOk result (begin_of lexer.new ≡ next_of lexer.old) }
    ensures shorter { OnOk result (left lexer.new < left lexer.old) }
    ensures refused { Refused context.entry.levels result (Barred so_far (around_of context.entry.around) (Part grammar.StringOnly) (place_of lexer.old)) }
{
    let Some(raw) = lexer.leaf(Leaf::Str) else {
        return Err(give_up(lexer));
    };
    counted(context, lexer)?;
    let lo = lexer.last_place();
    Ok(Text::Read(raw, lo))
}

/// The name of a tag.
pub fn tag_name<'s>(context: Context, lexer: &mut Lexer<'s>) -> Result<Text<'s>, ParseError>
    ensures read { IfOk result (λ t. Only so_far (around_of context.entry.around) (Part grammar.TagName) (place_of lexer.old) (one (leaf JsxName (text_of t))) (place_of lexer.new)) }
    ensures takes { IfOk result (λ t. Takes (Tok Tag JsxName (text_of t)) lexer.old lexer.new) }
    ensures place { IfOk result (λ t. Comes t (next_of lexer.old)) }
    ensures shorter { OnOk result (left lexer.new < left lexer.old) }
    ensures refused { Refused context.entry.levels result (Barred so_far (around_of context.entry.around) (Part grammar.TagName) (place_of lexer.old)) }
{
    let Some(raw) = lexer.leaf(Leaf::JsxName) else {
        return Err(give_up(lexer));
    };
    if !is_plain_tag(raw) {
        return Err(give_up(lexer));
    }
    counted(context, lexer)?;
    Ok(Text::Read(raw, lexer.last_place()))
}

/// An identifier name, reserved or not (ECMA-262 section 12.7).
pub fn identifier_name<'s>(context: Context, lexer: &mut Lexer<'s>) -> Result<&'s str, ParseError>
    ensures read { IfOk result (λ raw. Only so_far (around_of context.entry.around) (Part grammar.Name) (place_of lexer.old) (one (leaf IdentifierName (chars raw.now))) (place_of lexer.new)) }
    ensures takes { IfOk result (λ raw. Takes (Tok Operator IdentifierName (chars raw.now)) lexer.old lexer.new) }
    ensures begins { OnOk result (begin_of lexer.new ≡ next_of lexer.old) }
    ensures shorter { OnOk result (left lexer.new < left lexer.old) }
    ensures refused { Refused context.entry.levels result (Barred so_far (around_of context.entry.around) (Part grammar.Name) (place_of lexer.old)) }
{
    let Some(raw) = lexer.leaf(Leaf::Name) else {
        return Err(give_up(lexer));
    };
    counted(context, lexer)?;
    Ok(raw)
}
