//! Parentheses off. While a text is read they are nodes, since the levels of the grammar ask for them (ECMA-262 section 13.2.9).
//! So are those round a target (13.15.1). They tell no place of their own.

ghost use Rattle.std.specs.Prelude.{◌≡◌, IfOk, IfNone, IfSome, OnOk, MatchOption};
ghost use Rattle.jsx_base.specs.Token as token;
ghost use Rattle.jsx_tree.specs.declared.text.Goal as goals;
ghost use Rattle.jsx_tree.specs.Kinds.{Binds, Assigns};
ghost use Rattle.jsx_tree.specs.Normal.{unwrapped_node, without_parentheses};
ghost use Rattle.jsx_tree.specs.Told.{told, told_expr, told_pat};
ghost use Rattle.jsx_tree.specs.View.{view_expr, view_pattern};
ghost use Rattle.jsx_tree.specs.ViewProgram.{view};
ghost use Rattle.jsx_token.specs.Stage.{ReadsSoFar};
ghost use Rattle.jsx_visit.specs.Visit.{changed, changed_target, span_of};

use jsx_tree::{Expr, Pat, Program, Word};
use jsx_visit::{Visitor, visit};
use std::alloc::{AllocError, Global};
use std::mem;

/// A value in a box.
fn boxed<T: Drop>(alloc: Global, value: T) -> Result<Box<T>, AllocError>
    ensures { IfOk result (λ b. b.value ≡ value) }
{
    match Box::new(alloc, value) {
        Ok(made) => Ok(made),
        Err(_) => Err(AllocError),
    }
}

/// Takes a node out of its place, and leaves another there.
fn take<T: Drop>(alloc: Global, place: &mut Box<T>, left: T) -> Result<Box<T>, AllocError>
    ensures { IfOk result (λ taken. taken.value ≡ place.old.value) }
{
    let mut hole = boxed(alloc, left)?;
    mem::swap(place, &mut hole);
    Ok(hole)
}

/// What stands in an expression's parentheses, where it has some, taken out of them.
#[tactic(auto, using(crate::proofs::Unwrapping::nodes))]
fn take_out<'s>(alloc: Global, expr: &mut Expr<'s>) -> Result<Option<Box<Expr<'s>>>, AllocError>
    ensures seen { IfOk result (λ o. MatchOption o (changed unwrapped_node (view_expr expr.old) ≡ view_expr expr.old) (λ e. view_expr e.value ≡ changed unwrapped_node (view_expr expr.old))) }
    ensures places { IfOk result (λ o. IfSome o (λ e. told_expr e.value ≡ told_expr expr.old)) }
    ensures stays { IfOk result (λ o. IfNone o (expr.new ≡ expr.old)) }
{
    match expr {
        Expr::Paren(_, inner) => Ok(Some(take(alloc, inner, Expr::Word(None, Word::This))?)),
        _ => Ok(None),
    }
}

/// The same of a target.
#[tactic(auto, using(crate::proofs::Unwrapping::nodes))]
fn take_out_target<'s>(
    alloc: Global,
    target: &mut Pat<'s>,
) -> Result<Option<Box<Pat<'s>>>, AllocError>
    ensures binds { IfOk result (λ o. MatchOption o (changed_target unwrapped_node (view_pattern target.old Binds) ≡ view_pattern target.old Binds) (λ p. view_pattern p.value Binds ≡ changed_target unwrapped_node (view_pattern target.old Binds))) }
    ensures assigns { IfOk result (λ o. MatchOption o (changed_target unwrapped_node (view_pattern target.old Assigns) ≡ view_pattern target.old Assigns) (λ p. view_pattern p.value Assigns ≡ changed_target unwrapped_node (view_pattern target.old Assigns))) }
    ensures places { IfOk result (λ o. IfSome o (λ p. told_pat p.value ≡ told_pat target.old)) }
    ensures stays { IfOk result (λ o. IfNone o (target.new ≡ target.old)) }
{
    match target {
        Pat::Paren(_, inner) => Ok(Some(take(alloc, inner, Pat::Hole)?)),
        _ => Ok(None),
    }
}

/// A pass that takes off the parentheses round each expression and each target.
#[derive(Drop)]
struct PairsOff;

impl Visitor for PairsOff {
    ghost use Rattle.std.specs.Prelude.{true};
    ghost use Rattle.jsx_tree.specs.Normal.{unwrapped_node};

    ghost made = { unwrapped_node };

    ghost keeps = { true };

    fn expr(&mut self, alloc: Global, expr: &mut Box<Expr<'_>>) -> Result<(), AllocError> {
        if let Some(inner) = take_out(alloc, expr)? {
            *expr = inner;
        }
        Ok(())
    }

    fn target(&mut self, alloc: Global, target: &mut Box<Pat<'_>>) -> Result<(), AllocError> {
        if let Some(inner) = take_out_target(alloc, target)? {
            *target = inner;
        }
        Ok(())
    }
}

/// Takes off the parentheses of a program that was read. Each pair takes room for one expression while it goes.
///
/// # Errors
///
/// `AllocError` for want of memory. Then the program may be changed in part.
pub(crate) fn bare(alloc: Global, program: &mut Program<'_>) -> Result<(), AllocError>
    ensures seen { (goal : goals.Goal) (text : token.Text) → ReadsSoFar goal text (view program.old) → OnOk result (view program.new ≡ without_parentheses (view program.old)) }
    ensures places { OnOk result (told program.new ≡ told program.old) }
    ensures whole { OnOk result (span_of program.new ≡ span_of program.old) }
{
    let mut pairs_off = PairsOff;
    visit(alloc, &mut pairs_off, program)
}
