//! Labels, and jumps to them (ECMA-262 sections 14.8, 14.9 and 14.13).

ghost use Rattle.std.specs.Prelude.{◌≡◌, ◌<◌, ◌≤◌, ◌&&◌, ◌||◌, IfNone, IfOk, IfSome, OnOk, not};
ghost use Rattle.std.specs.Str.{chars};
ghost use Rattle.jsx_base.specs.Token.{same};
ghost use Rattle.jsx_tree.specs.Kinds.{Break, Continue, node, none, part, statement};
ghost use Rattle.jsx_tree.specs.StaticRules.{has_label, is_loop, stands};
ghost use Rattle.jsx_tree.specs.View.{optional_name};
ghost use Rattle.jsx_tree.specs.Told.{told_name};
ghost use Rattle.jsx_tree.specs.Answers.{NoRow};
ghost use Rattle.jsx_token.specs.Headings.{heading_kind};
ghost use Rattle.jsx_token.specs.Here.{left, place_of};
ghost use Rattle.jsx_token.specs.Places.{next_of};
ghost use Rattle.jsx_operand.specs.Answers.{Refused};
ghost use Rattle.jsx_operand.specs.Around.{around_of, labels_of};
ghost use Rattle.jsx_operand.specs.SoFar.{so_far};
ghost use Rattle.jsx_operand.specs.Spans.{IsPlacedFront};
ghost use Rattle.jsx_declaration.specs.Heads.{Front, free_end};
ghost use Rattle.jsx_declaration.specs.Labels.{IsBeforeLoop, IsLabel, NoLabel, TakesLabel, jump_row, jump_symbols, label_text, target_of, told_target};

use jsx_base::BytePos;
use jsx_operand::depth::counted;
use jsx_operand::{Context, Labels, ParseError, give_up};
use jsx_token::{Ending, Fixed, Heading, Leaf, Lexer, is_reserved};
use jsx_tree::{Ident, Text};

/// A label, and the place at which it stands.
#[derive(Clone, Copy)]
pub struct Label<'s> {
    pub name: &'s str,
    pub place: BytePos,
}

impl<'s> Label<'s> {
    /// The label as a name of the tree.
    pub fn ident(self) -> Ident<'s>
        ensures { result.text ≡ label_text self.entry }
    {
        let text = Text::Read(self.name, self.place);
        Ident { text }
    }
}

/// The label of a jump as a name of the tree, if it has one.
pub(crate) fn target(label: Option<Label<'_>>) -> Option<Ident<'_>>
    ensures view { optional_name result ≡ target_of label.entry }
    ensures told { told_name result ≡ told_target label.entry }
{
    label.map(Label::ident)
}

/// Takes a label and its `:` if they come next: `a:`.
pub fn take_label<'s>(lexer: &mut Lexer<'s>) -> Option<Label<'s>>
    ensures taken { IfSome result (λ l. IsLabel (chars l.name.now) (place_of lexer.old) (place_of lexer.new)) }
    ensures takes { IfSome result (λ l. TakesLabel (chars l.name.now) lexer.old lexer.new) }
    ensures place { IfSome result (λ l. l.place.0 ≡ next_of lexer.old) }
    ensures shorter { IfSome result (λ l. left lexer.new < left lexer.old) }
    ensures missing { IfNone result (NoLabel (place_of lexer.old)) }
    ensures stays { IfNone result (lexer.new ≡ lexer.old) }
{
    let mut ahead = lexer.fork();
    let Some(name) = ahead.leaf(Leaf::Name) else {
        return None;
    };
    if is_reserved(name) {
        return None;
    }
    let place = ahead.last_place();
    if !ahead.take(Fixed::Colon) {
        return None;
    }
    *lexer = ahead;
    Some(Label { name, place })
}

fn is_loop(heading: Heading) -> bool
    ensures { result ≡ is_loop (node (heading_kind heading) none) }
{
    matches!(heading, Heading::Do | Heading::While | Heading::For)
}

/// Whether the statement that comes next is a loop, behind further labels or not: `a: while (b) c;`.
pub fn is_before_loop(lexer: &Lexer) -> bool
    ensures { IsBeforeLoop result (place_of lexer.now) }
{
    let mut ahead = lexer.fork();
    'labels: while take_label(&mut ahead).is_some() {}
    match ahead.heading() {
        Some(heading) => is_loop(heading),
        None => false,
    }
}

/// Whether a label has the name, and stands on a loop where that is asked for.
fn is_label(other: &str, is_loop: bool, name: &str, on_loop: bool) -> bool
    ensures { result ≡ (same (chars name.now) (chars other.now) && (is_loop || not on_loop)) }
{
    name == other && (is_loop || !on_loop)
}

/// Whether a label encloses, one that stands on a loop where that is asked for.
pub fn has_label(labels: &Labels, name: &str, on_loop: bool) -> bool
    ensures { result ≡ has_label (chars name.now) on_loop (labels_of labels.now) }
{
    match labels {
        Labels::None => false,
        Labels::Inside(other, is_loop, outer) => {
            is_label(other, *is_loop, name, on_loop) || has_label(outer, name, on_loop)
        }
    }
}

/// The label behind `break` or `continue`, if there is one on the same line: ` a`.
pub(crate) fn jump_label<'s>(
    context: Context,
    lexer: &mut Lexer<'s>,
) -> Result<Option<Label<'s>>, ParseError>
    ensures read { IfOk result (λ l. Front (around_of context.entry.around) jump_row free_end (place_of lexer.old) (target_of l) (place_of lexer.new)) }
    ensures placed { IfOk result (λ l. IsPlacedFront jump_symbols (told_target l) (target_of l) lexer.old lexer.new) }
    ensures within { OnOk result (left lexer.new ≤ left lexer.old) }
    ensures refused { Refused context.entry.levels result (NoRow so_far (around_of context.entry.around) jump_row (place_of lexer.old)) }
{
    lexer.ends(Ending::Word);
    if !lexer.is_on_line() {
        return Ok(None);
    }
    let Some(name) = lexer.leaf(Leaf::Name) else {
        return Ok(None);
    };
    if is_reserved(name) {
        return Err(give_up(lexer));
    }
    counted(context, lexer)?;
    let place = lexer.last_place();
    lexer.ends(Ending::Word);
    Ok(Some(Label { name, place }))
}

/// Whether a `break` may stand there: to a label that encloses, or in a loop or a `switch`.
pub(crate) fn may_break(context: Context, label: Option<Label>) -> bool
    ensures { result ≡ stands (statement Break) (part (target_of label.entry) none) (around_of context.entry.around) }
{
    match label {
        Some(label) => has_label(context.around.labels, label.name, false),
        None => context.around.breakable,
    }
}

/// Whether a `continue` may stand there: to the label of a loop that encloses, or in a loop.
pub(crate) fn may_continue(context: Context, label: Option<Label>) -> bool
    ensures { result ≡ stands (statement Continue) (part (target_of label.entry) none) (around_of context.entry.around) }
{
    match label {
        Some(label) => has_label(context.around.labels, label.name, true),
        None => context.around.in_loop,
    }
}
