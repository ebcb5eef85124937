//! Functions and classes (ECMA-262 sections 15.2 to 15.7).

ghost use Rattle.std.specs.Prelude.{◌≡◌, OnOk, map};
ghost use Rattle.jsx_plan.specs.Plan.{job_of, outcome, with_tree};
ghost use Rattle.jsx_tree.specs.Kinds.{Binds, ClassDecl, ClassExpr, FunctionDecl, FunctionExpr, function, list, node, none, part, statement};
ghost use Rattle.jsx_tree.specs.View.{body, forest_at, inside, members_of_class, name_of, optional_of};
ghost use Rattle.jsx_plan.specs.Noted.{noted_expr, noted_member, noted_pattern, noted_stmt};

use jsx_pen::Step;
use jsx_plan::{Printer, Role};
use jsx_tree::{Expr, Ident, Pat, Prop, Stmt, Text};
use std::alloc::AllocError;

/// `function f(a) {}`
#[tactic(auto, using(crate::proofs::Productions::absent))]
pub(crate) fn function_expr<'a, 's>(
    printer: &mut Printer<'a, 's>,
    name: &'a Option<Box<Ident<'s>>>,
    params: &'a [Box<Pat<'s>>],
    directives: &'a [Text<'s>],
    stmts: &'a [Box<Stmt<'s>>],
) -> Result<(), AllocError>
    ensures { OnOk result (outcome (job_of printer.new) ≡ with_tree (job_of printer.old) (node (function FunctionExpr) (part (optional_of name_of name.now) (part (list (forest_at Binds (map (inside noted_pattern) params.now))) (part (body directives.now (map (inside noted_stmt) stmts.now)) none))))) }
{
    printer.body(directives, stmts)?;
    printer.sign(") ")?;
    printer.pats(params, Role::Binds)?;
    printer.sign("(")?;
    printer.may_boxed(name)?;
    printer.sign("function ")
}

#[tactic(auto, using(crate::proofs::Productions::plain))]
pub(crate) fn function_stmt<'a, 's>(
    printer: &mut Printer<'a, 's>,
    name: &'a Ident<'s>,
    params: &'a [Box<Pat<'s>>],
    directives: &'a [Text<'s>],
    stmts: &'a [Box<Stmt<'s>>],
) -> Result<(), AllocError>
    ensures { OnOk result (outcome (job_of printer.new) ≡ with_tree (job_of printer.old) (node (statement FunctionDecl) (part (name_of name.now) (part (list (forest_at Binds (map (inside noted_pattern) params.now))) (part (body directives.now (map (inside noted_stmt) stmts.now)) none))))) }
{
    printer.body(directives, stmts)?;
    printer.sign(") ")?;
    printer.pats(params, Role::Binds)?;
    printer.sign("(")?;
    printer.word(&name.text)?;
    printer.sign("function ")
}

/// `class A extends B {}`
#[tactic(auto, using(crate::proofs::Productions::absent))]
pub(crate) fn class_expr<'a, 's>(
    printer: &mut Printer<'a, 's>,
    name: &'a Option<Box<Ident<'s>>>,
    parent: &'a Option<Box<Expr<'s>>>,
    members: &'a [Box<Prop<'s>>],
) -> Result<(), AllocError>
    ensures { OnOk result (outcome (job_of printer.new) ≡ with_tree (job_of printer.old) (node (function ClassExpr) (part (optional_of name_of name.now) (part (optional_of noted_expr parent.now) (part (list (members_of_class (map (inside noted_member) members.now))) none))))) }
{
    printer.sign("}")?;
    printer.step(Step::Outdent)?;
    printer.members(members)?;
    printer.step(Step::Indent)?;
    printer.sign("{")?;
    printer.raw(" ")?;
    printer.led_expr(" extends ", parent)?;
    printer.led_boxed(" ", name)?;
    printer.sign("class")
}

#[tactic(auto, using(crate::proofs::Productions::absent))]
pub(crate) fn class_stmt<'a, 's>(
    printer: &mut Printer<'a, 's>,
    name: &'a Ident<'s>,
    parent: &'a Option<Box<Expr<'s>>>,
    members: &'a [Box<Prop<'s>>],
) -> Result<(), AllocError>
    ensures { OnOk result (outcome (job_of printer.new) ≡ with_tree (job_of printer.old) (node (statement ClassDecl) (part (name_of name.now) (part (optional_of noted_expr parent.now) (part (list (members_of_class (map (inside noted_member) members.now))) none))))) }
{
    printer.sign("}")?;
    printer.step(Step::Outdent)?;
    printer.members(members)?;
    printer.step(Step::Indent)?;
    printer.sign("{")?;
    printer.raw(" ")?;
    printer.led_expr(" extends ", parent)?;
    printer.word(&name.text)?;
    printer.sign("class ")
}
