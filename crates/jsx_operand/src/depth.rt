//! How deep constructs nest. Each counts from a token of its own on, which is its first, or the one behind its first part: a sum counts from
//! its operator (ECMA-262 sections 13 to 16).

ghost use Rattle.std.specs.Prelude.{◌≡◌, suc, IfOk};
ghost use Rattle.jsx_tree.specs.Faults.{Below};
ghost use Rattle.jsx_tree.specs.Kinds.{Assigns, Binds};
ghost use Rattle.jsx_tree.specs.View.{view_expr, view_pattern};
ghost use Rattle.jsx_operand.specs.Answers.{Refused};
ghost use Rattle.jsx_operand.specs.Outgrown.{Outgrown};

use crate::around::Context;
use crate::error::ParseError;
use jsx_base::BytePos;
use jsx_depth::{fits_expr, fits_pattern};
use jsx_token::Lexer;
use jsx_tree::{Expr, Pat};

/// Notes that so many levels are left below what was read last.
pub fn leave(context: Context, levels: u32) {
    if levels < context.spare.get() {
        context.spare.set(levels);
    }
}

/// Measures anew from here on, and gives what was left before.
pub fn measure(context: Context) -> u32 {
    context.spare.replace(u32::MAX)
}

/// Puts all that was measured since into a level of its own, where one is left for that.
fn deepen(context: Context) -> bool {
    let spare = context.spare.get();
    if spare == 0 {
        return false;
    }
    context.spare.set(spare - 1);
    true
}

/// How deep what stands in a construct may be that counts from a token at a place.
pub fn within_at(context: Context, at: BytePos) -> Result<u32, ParseError>
    ensures levels { IfOk result (λ n. suc n ≡ context.entry.levels) }
    ensures refused { Refused context.entry.levels result (Below 0) }
{
    if context.levels == 0 {
        return Err(ParseError::TooDeep(at));
    }
    let levels = context.levels - 1;
    leave(context, levels);
    Ok(levels)
}

/// How deep what stands in a construct may be that counts from the token that was taken last: `(`, `if`.
pub fn within(context: Context, lexer: &Lexer) -> Result<u32, ParseError>
    ensures levels { IfOk result (λ n. suc n ≡ context.entry.levels) }
    ensures refused { Refused context.entry.levels result (Below 0) }
{
    within_at(context, lexer.last_place())
}

/// Counts the name, the literal or the word that was taken last.
pub fn counted(context: Context, lexer: &Lexer) -> Result<(), ParseError>
    ensures refused { Refused context.entry.levels result (Below 0) }
{
    within(context, lexer)?;
    Ok(())
}

/// How deep what stands in a construct may be that counts from the token that was taken last and has one name, literal or word so far, which is
/// that token or the one before it: `a` of `{ a: b }`, `=>` of `a => b`.
pub fn within_leaf(context: Context, lexer: &Lexer) -> Result<u32, ParseError>
    ensures levels { IfOk result (λ n. suc n ≡ context.entry.levels) }
    ensures refused { Refused context.entry.levels result (Below 1) }
{
    within_leaf_at(context, lexer.last_place())
}

/// The same at a place.
pub fn within_leaf_at(context: Context, at: BytePos) -> Result<u32, ParseError>
    ensures levels { IfOk result (λ n. suc n ≡ context.entry.levels) }
    ensures refused { Refused context.entry.levels result (Below 1) }
{
    let levels = within_at(context, at)?;
    within_at(Context { levels, ..context }, at)?;
    Ok(levels)
}

/// How deep what stands behind a first part may be, in a construct that counts from the token that was taken last: `+` of `a + b`. Where what was
/// measured leaves no level for it, the first part itself is looked at.
pub fn behind_expr(context: Context, lexer: &Lexer, first: &Expr) -> Result<u32, ParseError>
    ensures levels { IfOk result (λ n. suc n ≡ context.entry.levels) }
    ensures refused { Refused context.entry.levels result (Outgrown (view_expr first.now)) }
{
    behind_expr_at(context, lexer.last_place(), first)
}

/// The same behind the token at a place.
pub fn behind_expr_at(context: Context, at: BytePos, first: &Expr) -> Result<u32, ParseError>
    ensures levels { IfOk result (λ n. suc n ≡ context.entry.levels) }
    ensures refused { Refused context.entry.levels result (Outgrown (view_expr first.now)) }
{
    let is_deepened = deepen(context);
    let levels = within_at(context, at)?;
    if !is_deepened && !fits_expr(first, levels) {
        return Err(ParseError::TooDeep(at));
    }
    Ok(levels)
}

/// The same behind a pattern: `=` of `[a] = b`.
pub fn behind_pattern(context: Context, lexer: &Lexer, first: &Pat) -> Result<u32, ParseError>
    ensures levels { IfOk result (λ n. suc n ≡ context.entry.levels) }
    ensures binds { Refused context.entry.levels result (Outgrown (view_pattern first.now Binds)) }
    ensures assigns { Refused context.entry.levels result (Outgrown (view_pattern first.now Assigns)) }
{
    let is_deepened = deepen(context);
    let levels = within(context, lexer)?;
    if !is_deepened && !fits_pattern(first, levels) {
        return Err(ParseError::TooDeep(lexer.last_place()));
    }
    Ok(levels)
}
