//! Templates (ECMA-262 sections 13.2.8 and 13.3.11).

ghost use Rattle.std.specs.Prelude.{◌≡◌, [], ◌<◌, IfOk, OnOk, false, true};
ghost use Rattle.std.specs.Str.{chars};
ghost use Rattle.jsx_base.specs.Token.{TemplateMiddle};
ghost use Rattle.jsx_tree.specs.Kinds.{leaf};
ghost use Rattle.jsx_tree.specs.Nonterminals as grammar;
ghost use Rattle.jsx_tree.specs.Grammar.{Part};
ghost use Rattle.jsx_tree.specs.Spans.{Comes};
ghost use Rattle.jsx_tree.specs.View.{text_of};
ghost use Rattle.jsx_tree.specs.Walk.{one};
ghost use Rattle.jsx_tree.specs.Answers.{Only};
ghost use Rattle.jsx_token.specs.Here.{left, piece_sign, place_of};
ghost use Rattle.jsx_token.specs.declared.lexer.Piece.TheVariants as kinds;
ghost use Rattle.jsx_token.specs.Places.{Takes, begin_of, end_of};
ghost use Rattle.jsx_operand.specs.Answers.{PlainRefused, Refused};
ghost use Rattle.jsx_operand.specs.Around.{around_of};
ghost use Rattle.jsx_operand.specs.SoFar.{so_far};
ghost use Rattle.jsx_operand.specs.Templates.{IsPiece, NoMiddle, fits_tag};

use crate::around::Context;
use crate::depth::counted;
use crate::error::ParseError;
use crate::parser::give_up;
use jsx_base::BytePos;
use jsx_token::{Lexer, Piece, is_cooked};
use jsx_tree::{Expr, Text};

/// The pieces of a template, and the expressions between them.
#[derive(Drop)]
pub struct Template<'s> {
    /// Where it begins.
    pub lo: BytePos,
    pub pieces: Vec<Text<'s>>,
    pub parts: Vec<Box<Expr<'s>>>,
}

/// Whether a piece may be one of a template. Where that is tagged, each may.
fn fits(is_tagged: bool, raw: &str) -> bool
    ensures { result ≡ fits_tag is_tagged (chars raw.now) }
{
    is_tagged || is_cooked(raw)
}

/// The piece that was taken last.
pub fn piece_text<'s>(
    lexer: &Lexer<'s>,
    is_tagged: bool,
    raw: &'s str,
) -> Result<Text<'s>, ParseError>
    ensures text { IfOk result (λ t. text_of t ≡ chars raw.now) }
    ensures place { IfOk result (λ t. Comes t (begin_of lexer.now)) }
    ensures fits { OnOk result (fits_tag is_tagged (chars raw.now) ≡ true) }
    ensures refused { PlainRefused result (fits_tag is_tagged (chars raw.now) ≡ false) }
{
    if !fits(is_tagged, raw) {
        return Err(give_up(lexer));
    }
    Ok(Text::Read(raw, lexer.last_place()))
}

/// A piece behind a `}`, up to the next `${`.
pub fn middle<'s>(
    context: Context,
    lexer: &mut Lexer<'s>,
    is_tagged: bool,
) -> Result<Text<'s>, ParseError>
    ensures read { IfOk result (λ t. Only so_far (around_of context.entry.around) (Part (grammar.TemplatePart TemplateMiddle)) (place_of lexer.old) (one (leaf TemplateMiddle (text_of t))) (place_of lexer.new)) }
    ensures fits { IfOk result (λ t. fits_tag is_tagged (text_of t) ≡ true) }
    ensures takes { IfOk result (λ t. Takes (piece_sign kinds.Middle (text_of t)) lexer.old lexer.new) }
    ensures place { IfOk result (λ t. Comes t (end_of lexer.old)) }
    ensures shorter { OnOk result (left lexer.new < left lexer.old) }
    ensures refused { Refused context.entry.levels result (NoMiddle is_tagged (place_of lexer.old)) }
{
    let Some(raw) = lexer.piece(Piece::Middle) else {
        return Err(give_up(lexer));
    };
    let piece = piece_text(lexer, is_tagged, raw)?;
    counted(context, lexer)?;
    Ok(piece)
}

/// A template of one piece, which was taken last.
pub fn whole_template<'s>(
    context: Context,
    lexer: &Lexer<'s>,
    is_tagged: bool,
    raw: &'s str,
) -> Result<Template<'s>, ParseError>
    ensures begins { IfOk result (λ t. t.lo.0 ≡ begin_of lexer.now) }
    ensures piece { IfOk result (λ t. IsPiece t.pieces.items (chars raw.now) (begin_of lexer.now)) }
    ensures parts { IfOk result (λ t. t.parts.items ≡ []) }
    ensures fits { OnOk result (fits_tag is_tagged (chars raw.now) ≡ true) }
    ensures refused { PlainRefused result (fits_tag is_tagged (chars raw.now) ≡ false) }
{
    let piece = piece_text(lexer, is_tagged, raw)?;
    let mut pieces = Vec::with_capacity(context.alloc, 1)?;
    pieces.push(piece)?;
    let parts = Vec::new(context.alloc);
    Ok(Template {
        lo: lexer.last_place(),
        pieces,
        parts,
    })
}
