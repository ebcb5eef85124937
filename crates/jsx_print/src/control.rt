//! Statements that hold others (ECMA-262 sections 14.6, 14.7 and 14.11 to 14.15).

ghost use Rattle.std.specs.Prelude.{◌≡◌, OnOk, map};
ghost use Rattle.jsx_plan.specs.Plan.{job_of, outcome, with_tree};
ghost use Rattle.jsx_tree.specs.Kinds.{Assigns, Binds, Case, Catch, Default, Do, For, ForIn, ForOf, If, Label, Switch, Try, While, list, node, none, part, statement};
ghost use Rattle.jsx_tree.specs.View.{clause_of, forest, inside, name_of, optional_at_of, optional_of};
ghost use Rattle.jsx_plan.specs.Noted.{noted_control, noted_expr, noted_pattern, noted_stmt};

use jsx_pen::Step;
use jsx_plan::{Printer, Role};
use jsx_tree::{Control, Expr, Ident, Pat, Stmt};
use std::alloc::AllocError;

/// Statements that hold others, and their clauses.
#[tactic(auto, using(crate::proofs::Productions::opening))]
pub(crate) fn open_control<'a, 's>(
    printer: &mut Printer<'a, 's>,
    control: &'a Control<'s>,
) -> Result<(), AllocError>
    ensures { OnOk result (outcome (job_of printer.new) ≡ with_tree (job_of printer.old) (noted_control control.now)) }
{
    match control {
        Control::If(_, test, yes, no) => if_stmt(printer, test, yes, no),
        Control::Do(_, body, test) => do_loop(printer, body, test),
        Control::While(_, test, body) => while_loop(printer, test, body),
        Control::For(_, init, test, update, body) => for_loop(printer, init, test, update, body),
        Control::ForIn(_, head, object, body) => for_in(printer, head, object, body),
        Control::ForOf(_, head, items, body) => for_of(printer, head, items, body),
        Control::Label(_, label, body) => labelled(printer, label, body),
        Control::Switch(_, value, cases) => switch(printer, value, cases),
        Control::Case(_, test, stmts) => case(printer, test, stmts),
        Control::Try(_, block, handler, finalizer) => try_stmt(printer, block, handler, finalizer),
        Control::Catch(_, param, block) => catch(printer, param, block),
    }
}

#[tactic(auto, using(crate::proofs::Productions::absent))]
fn if_stmt<'a, 's>(
    printer: &mut Printer<'a, 's>,
    test: &'a Box<Expr<'s>>,
    yes: &'a Box<Stmt<'s>>,
    no: &'a Option<Box<Stmt<'s>>>,
) -> Result<(), AllocError>
    ensures { OnOk result (outcome (job_of printer.new) ≡ with_tree (job_of printer.old) (node (statement If) (part (noted_expr test.now.value) (part (noted_stmt yes.now.value) (part (optional_of noted_stmt no.now) none))))) }
{
    printer.led_stmt(" else ", no)?;
    printer.stmt(yes)?;
    printer.sign(") ")?;
    printer.expr(test)?;
    printer.sign("if (")
}

#[tactic(auto, using(crate::proofs::Productions::plain))]
fn do_loop<'a, 's>(
    printer: &mut Printer<'a, 's>,
    body: &'a Box<Stmt<'s>>,
    test: &'a Box<Expr<'s>>,
) -> Result<(), AllocError>
    ensures { OnOk result (outcome (job_of printer.new) ≡ with_tree (job_of printer.old) (node (statement Do) (part (noted_stmt body.now.value) (part (noted_expr test.now.value) none)))) }
{
    printer.sign(");")?;
    printer.expr(test)?;
    printer.raw(" while (")?;
    printer.stmt(body)?;
    printer.sign("do ")
}

#[tactic(auto, using(crate::proofs::Productions::plain))]
fn while_loop<'a, 's>(
    printer: &mut Printer<'a, 's>,
    test: &'a Box<Expr<'s>>,
    body: &'a Box<Stmt<'s>>,
) -> Result<(), AllocError>
    ensures { OnOk result (outcome (job_of printer.new) ≡ with_tree (job_of printer.old) (node (statement While) (part (noted_expr test.now.value) (part (noted_stmt body.now.value) none)))) }
{
    printer.stmt(body)?;
    printer.sign(") ")?;
    printer.expr(test)?;
    printer.sign("while (")
}

#[tactic(auto, using(crate::proofs::Productions::absent))]
fn for_loop<'a, 's>(
    printer: &mut Printer<'a, 's>,
    init: &'a Option<Box<Pat<'s>>>,
    test: &'a Option<Box<Expr<'s>>>,
    update: &'a Option<Box<Expr<'s>>>,
    body: &'a Box<Stmt<'s>>,
) -> Result<(), AllocError>
    ensures { OnOk result (outcome (job_of printer.new) ≡ with_tree (job_of printer.old) (node (statement For) (part (optional_at_of Assigns noted_pattern init.now) (part (optional_of noted_expr test.now) (part (optional_of noted_expr update.now) (part (noted_stmt body.now.value) none)))))) }
{
    printer.stmt(body)?;
    printer.sign(") ")?;
    printer.led_expr(" ", update)?;
    printer.sign(";")?;
    printer.led_expr(" ", test)?;
    printer.sign(";")?;
    printer.may_pat(init, Role::Assigns)?;
    printer.sign("for (")
}

#[tactic(auto, using(crate::proofs::Productions::plain))]
fn for_in<'a, 's>(
    printer: &mut Printer<'a, 's>,
    head: &'a Box<Pat<'s>>,
    object: &'a Box<Expr<'s>>,
    body: &'a Box<Stmt<'s>>,
) -> Result<(), AllocError>
    ensures { OnOk result (outcome (job_of printer.new) ≡ with_tree (job_of printer.old) (node (statement ForIn) (part (noted_pattern head.now.value Assigns) (part (noted_expr object.now.value) (part (noted_stmt body.now.value) none))))) }
{
    printer.stmt(body)?;
    printer.sign(") ")?;
    printer.expr(object)?;
    printer.raw(" in ")?;
    printer.pat(head, Role::Assigns)?;
    printer.sign("for (")
}

#[tactic(auto, using(crate::proofs::Productions::plain))]
fn for_of<'a, 's>(
    printer: &mut Printer<'a, 's>,
    head: &'a Box<Pat<'s>>,
    items: &'a Box<Expr<'s>>,
    body: &'a Box<Stmt<'s>>,
) -> Result<(), AllocError>
    ensures { OnOk result (outcome (job_of printer.new) ≡ with_tree (job_of printer.old) (node (statement ForOf) (part (noted_pattern head.now.value Assigns) (part (noted_expr items.now.value) (part (noted_stmt body.now.value) none))))) }
{
    printer.stmt(body)?;
    printer.sign(") ")?;
    printer.expr(items)?;
    printer.raw(" of ")?;
    printer.pat(head, Role::Assigns)?;
    printer.sign("for (")
}

#[tactic(auto, using(crate::proofs::Productions::plain))]
fn labelled<'a, 's>(
    printer: &mut Printer<'a, 's>,
    label: &'a Ident<'s>,
    body: &'a Box<Stmt<'s>>,
) -> Result<(), AllocError>
    ensures { OnOk result (outcome (job_of printer.new) ≡ with_tree (job_of printer.old) (node (statement Label) (part (name_of label.now) (part (noted_stmt body.now.value) none)))) }
{
    printer.stmt(body)?;
    printer.sign(": ")?;
    printer.word(&label.text)
}

#[tactic(auto, using(crate::proofs::Productions::plain))]
fn switch<'a, 's>(
    printer: &mut Printer<'a, 's>,
    value: &'a Box<Expr<'s>>,
    cases: &'a [Box<Control<'s>>],
) -> Result<(), AllocError>
    ensures { OnOk result (outcome (job_of printer.new) ≡ with_tree (job_of printer.old) (node (statement Switch) (part (noted_expr value.now.value) (part (list (forest (map (inside noted_control) cases.now))) none)))) }
{
    printer.sign("}")?;
    printer.step(Step::Outdent)?;
    printer.cases(cases)?;
    printer.step(Step::Indent)?;
    printer.sign("{")?;
    printer.sign(") ")?;
    printer.expr(value)?;
    printer.sign("switch (")
}

/// `case a: b;`, or `default: b;`
#[tactic(auto, using(crate::proofs::Productions::planning))]
fn case<'a, 's>(
    printer: &mut Printer<'a, 's>,
    test: &'a Option<Box<Expr<'s>>>,
    stmts: &'a [Box<Stmt<'s>>],
) -> Result<(), AllocError>
    ensures { OnOk result (outcome (job_of printer.new) ≡ with_tree (job_of printer.old) (clause_of noted_expr test.now (list (forest (map (inside noted_stmt) stmts.now))))) }
{
    match test {
        Some(test) => test_case(printer, test, stmts),
        None => default_case(printer, stmts),
    }
}

#[tactic(auto, using(crate::proofs::Productions::plain))]
fn test_case<'a, 's>(
    printer: &mut Printer<'a, 's>,
    test: &'a Box<Expr<'s>>,
    stmts: &'a [Box<Stmt<'s>>],
) -> Result<(), AllocError>
    ensures { OnOk result (outcome (job_of printer.new) ≡ with_tree (job_of printer.old) (node (statement Case) (part (noted_expr test.now.value) (part (list (forest (map (inside noted_stmt) stmts.now))) none)))) }
{
    printer.step(Step::Unindent)?;
    printer.stmts(stmts)?;
    printer.step(Step::Indent)?;
    printer.sign(":")?;
    printer.expr(test)?;
    printer.sign("case ")
}

#[tactic(auto, using(crate::proofs::Productions::plain))]
fn default_case<'a, 's>(
    printer: &mut Printer<'a, 's>,
    stmts: &'a [Box<Stmt<'s>>],
) -> Result<(), AllocError>
    ensures { OnOk result (outcome (job_of printer.new) ≡ with_tree (job_of printer.old) (node (statement Default) (part (list (forest (map (inside noted_stmt) stmts.now))) none))) }
{
    printer.step(Step::Unindent)?;
    printer.stmts(stmts)?;
    printer.step(Step::Indent)?;
    printer.sign("default:")
}

#[tactic(auto, using(crate::proofs::Productions::planning))]
fn try_stmt<'a, 's>(
    printer: &mut Printer<'a, 's>,
    block: &'a Box<Stmt<'s>>,
    handler: &'a Option<Box<Control<'s>>>,
    finalizer: &'a Option<Box<Stmt<'s>>>,
) -> Result<(), AllocError>
    ensures { OnOk result (outcome (job_of printer.new) ≡ with_tree (job_of printer.old) (node (statement Try) (part (noted_stmt block.now.value) (part (optional_of noted_control handler.now) (part (optional_of noted_stmt finalizer.now) none))))) }
{
    printer.led_stmt(" finally ", finalizer)?;
    printer.led_control(" catch ", handler)?;
    printer.stmt(block)?;
    printer.sign("try ")
}

/// `catch (a) {}`
#[tactic(auto, using(crate::proofs::Productions::planning))]
fn catch<'a, 's>(
    printer: &mut Printer<'a, 's>,
    param: &'a Option<Box<Pat<'s>>>,
    block: &'a Box<Stmt<'s>>,
) -> Result<(), AllocError>
    ensures { OnOk result (outcome (job_of printer.new) ≡ with_tree (job_of printer.old) (node (statement Catch) (part (optional_at_of Binds noted_pattern param.now) (part (noted_stmt block.now.value) none)))) }
{
    match param {
        Some(param) => {
            printer.stmt(block)?;
            printer.sign(") ")?;
            printer.pat(param, Role::Binds)?;
            printer.sign("(")
        }
        None => printer.stmt(block),
    }
}
