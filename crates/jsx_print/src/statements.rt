//! Statements (ECMA-262 section 14).

ghost use Rattle.std.specs.Prelude.{◌≡◌, OnOk, map};
ghost use Rattle.jsx_plan.specs.Plan.{job_of, outcome, with_tree};
ghost use Rattle.jsx_tree.specs.Kinds.{Binds, Block, Break, Continue, ExprStmt, Return, Throw, Var, list, node, none, part, statement};
ghost use Rattle.jsx_tree.specs.View.{forest, forest_at, inside, optional_name, optional_of, word_of};
ghost use Rattle.jsx_plan.specs.Noted.{noted_expr, noted_pattern, noted_stmt};

use crate::control::open_control;
use crate::functions::{class_stmt, function_stmt};
use jsx_pen::Step;
use jsx_plan::{Printer, Role};
use jsx_tree::{DeclareWord, Expr, Ident, Pat, Stmt};
use std::alloc::AllocError;

/// A statement.
#[tactic(auto, using(crate::proofs::Productions::opening))]
pub(crate) fn open_stmt<'a, 's>(
    printer: &mut Printer<'a, 's>,
    stmt: &'a Box<Stmt<'s>>,
) -> Result<(), AllocError>
    ensures { OnOk result (outcome (job_of printer.new) ≡ with_tree (job_of printer.old) (noted_stmt stmt.now.value)) }
{
    match &**stmt {
        Stmt::Block(_, stmts) => block(printer, stmts),
        Stmt::Var(_, word, declarators) => var(printer, *word, declarators),
        Stmt::Empty(_) => printer.sign(";"),
        Stmt::Expr(_, expr) => expr_stmt(printer, expr),
        Stmt::Control(control) => open_control(printer, control),
        Stmt::Continue(_, label) => continue_stmt(printer, label),
        Stmt::Break(_, label) => break_stmt(printer, label),
        Stmt::Return(_, value) => return_stmt(printer, value),
        Stmt::Throw(_, value) => throw(printer, value),
        Stmt::Debugger(_) => printer.sign("debugger;"),
        Stmt::Function(_, name, params, directives, stmts) => function_stmt(
            printer, name, params, directives, stmts,
        ),
        Stmt::Class(_, name, parent, members) => class_stmt(printer, name, parent, members),
    }
}

#[tactic(auto, using(crate::proofs::Productions::plain))]
fn block<'a, 's>(
    printer: &mut Printer<'a, 's>,
    stmts: &'a [Box<Stmt<'s>>],
) -> Result<(), AllocError>
    ensures { OnOk result (outcome (job_of printer.new) ≡ with_tree (job_of printer.old) (node (statement Block) (part (list (forest (map (inside noted_stmt) stmts.now))) none))) }
{
    printer.sign("}")?;
    printer.step(Step::Outdent)?;
    printer.stmts(stmts)?;
    printer.step(Step::Indent)?;
    printer.sign("{")
}

/// `const a = 1, b = 2;`
#[tactic(auto, using(crate::proofs::Productions::planning))]
fn var<'a, 's>(
    printer: &mut Printer<'a, 's>,
    word: DeclareWord,
    declarators: &'a [Box<Pat<'s>>],
) -> Result<(), AllocError>
    ensures { OnOk result (outcome (job_of printer.new) ≡ with_tree (job_of printer.old) (node (statement (Var (word_of word))) (part (list (forest_at Binds (map (inside noted_pattern) declarators.now))) none))) }
{
    printer.sign(";")?;
    printer.pats(declarators, Role::Binds)?;
    printer.declare_word(word)
}

#[tactic(auto, using(crate::proofs::Productions::planning))]
fn expr_stmt<'a, 's>(
    printer: &mut Printer<'a, 's>,
    expr: &'a Box<Expr<'s>>,
) -> Result<(), AllocError>
    ensures { OnOk result (outcome (job_of printer.new) ≡ with_tree (job_of printer.old) (node (statement ExprStmt) (part (noted_expr expr.now.value) none))) }
{
    printer.sign(";")?;
    printer.expr(expr)
}

#[tactic(auto, using(crate::proofs::Productions::planning))]
fn continue_stmt<'a, 's>(
    printer: &mut Printer<'a, 's>,
    label: &'a Option<Ident<'s>>,
) -> Result<(), AllocError>
    ensures { OnOk result (outcome (job_of printer.new) ≡ with_tree (job_of printer.old) (node (statement Continue) (part (optional_name label.now) none))) }
{
    printer.sign(";")?;
    printer.led_name(" ", label)?;
    printer.sign("continue")
}

#[tactic(auto, using(crate::proofs::Productions::planning))]
fn break_stmt<'a, 's>(
    printer: &mut Printer<'a, 's>,
    label: &'a Option<Ident<'s>>,
) -> Result<(), AllocError>
    ensures { OnOk result (outcome (job_of printer.new) ≡ with_tree (job_of printer.old) (node (statement Break) (part (optional_name label.now) none))) }
{
    printer.sign(";")?;
    printer.led_name(" ", label)?;
    printer.sign("break")
}

#[tactic(auto, using(crate::proofs::Productions::planning))]
fn return_stmt<'a, 's>(
    printer: &mut Printer<'a, 's>,
    value: &'a Option<Box<Expr<'s>>>,
) -> Result<(), AllocError>
    ensures { OnOk result (outcome (job_of printer.new) ≡ with_tree (job_of printer.old) (node (statement Return) (part (optional_of noted_expr value.now) none))) }
{
    printer.sign(";")?;
    printer.led_expr(" ", value)?;
    printer.sign("return")
}

#[tactic(auto, using(crate::proofs::Productions::plain))]
fn throw<'a, 's>(printer: &mut Printer<'a, 's>, value: &'a Box<Expr<'s>>) -> Result<(), AllocError>
    ensures { OnOk result (outcome (job_of printer.new) ≡ with_tree (job_of printer.old) (node (statement Throw) (part (noted_expr value.now.value) none))) }
{
    printer.sign(";")?;
    printer.expr(value)?;
    printer.sign("throw ")
}
