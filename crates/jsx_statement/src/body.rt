//! Directives, which stand first in a program and in the body of a function (ECMA-262 section 11.2.1), and such a body (section 15.2).

ghost use Rattle.std.specs.Prelude.{◌≡◌, ◌<◌, ◌≤◌, IfNone, IfOk, IfSome, OnOk, map, suc};
ghost use Rattle.jsx_base.specs.Token.{StringLiteral};
ghost use Rattle.jsx_tree.specs.Kinds.{leaf, none, part};
ghost use Rattle.jsx_tree.specs.Faults.{Unread};
ghost use Rattle.jsx_tree.specs.Grammar.{Lines, TopLines};
ghost use Rattle.jsx_tree.specs.Spans.{no_tales, tale};
ghost use Rattle.jsx_tree.specs.Told.{tales, told_directive, told_text};
ghost use Rattle.jsx_tree.specs.View.{directive, forest, text_of};
ghost use Rattle.jsx_tree.specs.Answers.{OnlyRow, NoRow};
ghost use Rattle.jsx_token.specs.Here.{place_of, left};
ghost use Rattle.jsx_operand.specs.Answers.{Refused};
ghost use Rattle.jsx_operand.specs.Around.{around_of};
ghost use Rattle.jsx_operand.specs.Bodies.{ReadsBodies, body_row, body_symbols, told_of, view_body};
ghost use Rattle.jsx_operand.specs.SoFar.{so_far};
ghost use Rattle.jsx_operand.specs.Spans.{IsPlacedList, IsPlacedRow};
ghost use Rattle.jsx_statement.specs.Directives.{NoPrologue, IsDirective, NoDirective, Prologue, directive_symbols};
ghost use Rattle.jsx_statement.specs.Within.{ReadsStatements};

use crate::grammar::Statements;
use crate::statement::Seat;
use jsx_operand::depth::within_at;
use jsx_operand::{Body, Context, ParseError};
use jsx_token::{Leaf, Lexer};
use jsx_tree::{Stmt, Text};

/// Takes a directive if one comes next: a string that is a statement alone, without parentheses. In `"a" + b` and in `"a"` before
/// `.b`, on whichever line, none does.
fn take_directive<'s>(
    context: Context,
    lexer: &mut Lexer<'s>,
) -> Result<Option<Text<'s>>, ParseError>
    ensures taken { IfOk result (λ o. IfSome o (λ t. IsDirective (place_of lexer.old) (directive t) (place_of lexer.new))) }
    ensures placed { IfOk result (λ o. IfSome o (λ t. IsPlacedRow directive_symbols (tale (told_text t) no_tales) (part (leaf StringLiteral (text_of t)) none) lexer.old lexer.new)) }
    ensures shorter { IfOk result (λ o. IfSome o (λ _. left lexer.new < left lexer.old)) }
    ensures missing { IfOk result (λ o. IfNone o (NoDirective (place_of lexer.old) Unread)) }
    ensures stays { IfOk result (λ o. IfNone o (lexer.new ≡ lexer.old)) }
    ensures refused { Refused context.entry.levels result (NoPrologue (place_of lexer.old)) }
{
    let mut ahead = lexer.fork();
    let Some(raw) = ahead.leaf(Leaf::Str) else {
        return Ok(None);
    };
    let at = ahead.last_place();
    if !ahead.semicolon() {
        return Ok(None);
    }
    within_at(context, at)?;
    *lexer = ahead;
    Ok(Some(Text::Read(raw, at)))
}

/// The directives that come first: `"use strict"; 'a'; b`.
pub fn directives<'s>(context: Context, lexer: &mut Lexer<'s>) -> Result<Vec<Text<'s>>, ParseError>
    ensures read { IfOk result (λ ds. Prologue (place_of lexer.old) (forest (map directive ds.items)) (place_of lexer.new)) }
    ensures lines { IfOk result (λ ds. IsPlacedList Lines (tales (map told_directive ds.items)) (forest (map directive ds.items)) lexer.old lexer.new) }
    ensures top_lines { IfOk result (λ ds. IsPlacedList TopLines (tales (map told_directive ds.items)) (forest (map directive ds.items)) lexer.old lexer.new) }
    ensures within { OnOk result (left lexer.new ≤ left lexer.old) }
    ensures refused { Refused context.entry.levels result (NoPrologue (place_of lexer.old)) }
{
    let mut all = Vec::new(context.alloc);
    'directives: while let Some(text) = take_directive(context, lexer)? {
        all.push(text)?;
    }
    Ok(all)
}

impl<
    F: for<'c, 's> Fn(Context<'c>, &mut Lexer<'s>, Seat) -> Result<Box<Stmt<'s>>, ParseError>,
    B: Copy + for<'c, 's> Fn(Context<'c>, &mut Lexer<'s>) -> Result<Body<'s>, ParseError>,
> Statements<F, B> {
    /// The body of a function behind its `{`, with its `}`: directives, and then statements, which are strict code if one of those
    /// says so: `"use strict"; a; }`.
    pub(crate) fn function_body<'s>(
        &self,
        context: Context,
        lexer: &mut Lexer<'s>,
    ) -> Result<Body<'s>, ParseError>
        requires nests { ReadsStatements (suc (left lexer.old)) (F.pre self.now.inner) (F.post self.now.inner) }
        requires bodies { ReadsBodies (left lexer.old) (B.pre self.now.body) (B.post self.now.body) }
        ensures read { IfOk result (λ b. OnlyRow so_far (around_of context.entry.around) body_row (place_of lexer.old) (part (view_body b) none) (place_of lexer.new)) }
        ensures placed { IfOk result (λ b. IsPlacedRow body_symbols (tale (told_of b) no_tales) (part (view_body b) none) lexer.old lexer.new) }
        ensures within { OnOk result (left lexer.new ≤ left lexer.old) }
        ensures refused { Refused context.entry.levels result (NoRow so_far (around_of context.entry.around) body_row (place_of lexer.old)) }
    {
        let directives = directives(context, lexer)?;
        let statements = self.lines(context.of_code(&directives), lexer)?;
        Ok(Body {
            directives,
            statements,
        })
    }
}
