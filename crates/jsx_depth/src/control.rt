//! Statements that hold others, and their clauses.

ghost use Rattle.std.specs.Prelude.{◌≡◌, map};
ghost use Rattle.jsx_tree.specs.Kinds.{list};
ghost use Rattle.jsx_tree.specs.View.{inside, forest, optional_of, view_control};
ghost use Rattle.jsx_depth.specs.Fits.{counts_tree, fits, fits_inside};

use crate::expressions::{fits_expr, fits_optional};
use crate::level::{has_level, within};
use crate::patterns::{fits_optional_pattern, fits_pattern};
use crate::statements::{fits_optional_stmt, fits_stmt, fits_stmts};
use jsx_tree::Control;

#[tactic(auto, using(crate::proofs::Depths::depths))]
pub(crate) fn counts_control(control: &Control) -> bool
    ensures { result ≡ counts_tree (view_control control.now) }
{
    match control {
        Control::Catch(..) => false,
        Control::If(..)
        | Control::Do(..)
        | Control::While(..)
        | Control::For(..)
        | Control::ForIn(..)
        | Control::ForOf(..)
        | Control::Label(..)
        | Control::Switch(..)
        | Control::Case(..)
        | Control::Try(..) => true,
    }
}

#[cycle(depth)]
#[tactic(auto, using(crate::proofs::Depths::depths))]
pub(crate) fn parts_of_control(control: &Control, levels: u32) -> bool
    ensures { result ≡ fits_inside levels (view_control control.now) }
{
    match control {
        Control::If(_, test, then, other) => {
            fits_expr(test, levels) && fits_stmt(then, levels) && fits_optional_stmt(other, levels)
        }
        Control::Do(_, body, test) => fits_stmt(body, levels) && fits_expr(test, levels),
        Control::While(_, test, body) => fits_expr(test, levels) && fits_stmt(body, levels),
        Control::For(_, first, test, step, body) => {
            fits_optional_pattern(first, levels)
                && fits_optional(test, levels)
                && fits_optional(step, levels)
                && fits_stmt(body, levels)
        }
        Control::ForIn(_, head, object, body) => {
            fits_pattern(head, levels) && fits_expr(object, levels) && fits_stmt(body, levels)
        }
        Control::ForOf(_, head, items, body) => {
            fits_pattern(head, levels) && fits_expr(items, levels) && fits_stmt(body, levels)
        }
        Control::Label(_, _, body) => has_level(levels) && fits_stmt(body, levels),
        Control::Switch(_, value, cases) => {
            fits_expr(value, levels) && fits_controls(cases, levels)
        }
        Control::Case(_, test, body) => fits_optional(test, levels) && fits_stmts(body, levels),
        Control::Try(_, block, handler, last) => {
            fits_stmt(block, levels)
                && fits_optional_control(handler, levels)
                && fits_optional_stmt(last, levels)
        }
        Control::Catch(_, parameter, body) => {
            fits_optional_pattern(parameter, levels) && fits_stmt(body, levels)
        }
    }
}

#[cycle(depth)]
#[tactic(auto, using(crate::proofs::Depths::nodes))]
fn fits_control(control: &Control, levels: u32) -> bool
    ensures { result ≡ fits levels (view_control control.now) }
{
    match within(counts_control(control), levels) {
        Some(inside) => parts_of_control(control, inside),
        None => false,
    }
}

#[cycle(depth)]
fn fits_controls(controls: &[Box<Control<'_>>], levels: u32) -> bool
    ensures { result ≡ fits levels (list (forest (map (inside view_control) controls.now))) }
{
    for control in controls {
        if !fits_control(control, levels) {
            return false;
        }
    }
    true
}

#[cycle(depth)]
#[tactic(auto, using(crate::proofs::Depths::depths))]
fn fits_optional_control(control: &Option<Box<Control<'_>>>, levels: u32) -> bool
    ensures { result ≡ fits levels (optional_of view_control control.now) }
{
    match control {
        Some(control) => fits_control(control, levels),
        None => true,
    }
}
