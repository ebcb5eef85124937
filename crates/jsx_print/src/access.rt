//! Members, calls and templates (ECMA-262 sections 13.2.8 and 13.3).

ghost use Rattle.std.specs.Prelude.{◌≡◌, OnOk, map, true};
ghost use Rattle.jsx_pen.specs.Calls.{from_call};
ghost use Rattle.jsx_plan.specs.Plan.{job_of, outcome, with_tree};
ghost use Rattle.jsx_tree.specs.Kinds.{Call, CallLink, Chain, ImportCall, Index, IndexLink, Member, NameLink, New, NewWithoutArguments, SuperCall, SuperIndex, SuperMember, Tagged, expression, list, node, none, part};
ghost use Rattle.jsx_tree.specs.View.{forest, inside, is_optional, template, word};
ghost use Rattle.jsx_plan.specs.Noted.{noted_access, noted_expr, noted_link};

use jsx_base::Span;
use jsx_pen::{before_call, before_index, dot};
use jsx_plan::Printer;
use jsx_tree::{Access, Expr, Link, LinkForm, Text};
use std::alloc::AllocError;

/// Members and calls.
#[tactic(auto, using(crate::proofs::Productions::variants))]
pub(crate) fn open_access<'a, 's>(
    printer: &mut Printer<'a, 's>,
    access: &'a Access<'s>,
) -> Result<(), AllocError>
    ensures { OnOk result (outcome (job_of printer.new) ≡ with_tree (job_of printer.old) (noted_access access.now)) }
{
    match access {
        Access::Call(at, callee, arguments) => call(printer, *at, callee, arguments),
        Access::Member(_, object, name) => member(printer, object, name),
        Access::Index(_, object, index) => computed_member(printer, object, index),
        Access::Tagged(_, tag, _, pieces, exprs) => tagged(printer, tag, pieces, exprs),
        Access::New(_, callee, arguments) => new_call(printer, callee, arguments),
        Access::NewWithoutArguments(_, callee) => bare_new(printer, callee),
        Access::SuperCall(_, arguments) => super_call(printer, arguments),
        Access::SuperMember(_, name) => super_member(printer, name),
        Access::SuperIndex(_, index) => super_index(printer, index),
        Access::ImportCall(_, source) => import_call(printer, source),
        Access::Chain(_, object, links) => chain(printer, object, links),
    }
}

#[tactic(auto, using(crate::proofs::Productions::calls))]
fn call<'a, 's>(
    printer: &mut Printer<'a, 's>,
    at: Option<Span>,
    callee: &'a Box<Expr<'s>>,
    arguments: &'a [Box<Expr<'s>>],
) -> Result<(), AllocError>
    ensures { OnOk result (outcome (job_of printer.new) ≡ with_tree (job_of printer.old) (node (expression Call) (part (from_call at (noted_expr callee.now.value)) (part (list (forest (map (inside noted_expr) arguments.now))) none)))) }
{
    printer.sign(")")?;
    printer.exprs(arguments)?;
    printer.sign("(")?;
    printer.expr(callee)?;
    printer.place(at)
}

#[tactic(auto, using(crate::proofs::Productions::plain))]
fn member<'a, 's>(
    printer: &mut Printer<'a, 's>,
    object: &'a Box<Expr<'s>>,
    name: &'a Text<'s>,
) -> Result<(), AllocError>
    ensures { OnOk result (outcome (job_of printer.new) ≡ with_tree (job_of printer.old) (node (expression Member) (part (noted_expr object.now.value) (part (word name.now) none)))) }
{
    printer.word(name)?;
    printer.sign(".")?;
    printer.expr(object)
}

#[tactic(auto, using(crate::proofs::Productions::plain))]
fn computed_member<'a, 's>(
    printer: &mut Printer<'a, 's>,
    object: &'a Box<Expr<'s>>,
    index: &'a Box<Expr<'s>>,
) -> Result<(), AllocError>
    ensures { OnOk result (outcome (job_of printer.new) ≡ with_tree (job_of printer.old) (node (expression Index) (part (noted_expr object.now.value) (part (noted_expr index.now.value) none)))) }
{
    printer.sign("]")?;
    printer.expr(index)?;
    printer.sign("[")?;
    printer.expr(object)
}

#[tactic(auto, using(crate::proofs::Productions::planning))]
fn tagged<'a, 's>(
    printer: &mut Printer<'a, 's>,
    tag: &'a Box<Expr<'s>>,
    pieces: &'a [Text<'s>],
    exprs: &'a [Box<Expr<'s>>],
) -> Result<(), AllocError>
    ensures { OnOk result (outcome (job_of printer.new) ≡ with_tree (job_of printer.old) (node (expression Tagged) (part (noted_expr tag.now.value) (part (template true pieces.now (map (inside noted_expr) exprs.now)) none)))) }
{
    printer.template(pieces, exprs)?;
    printer.expr(tag)
}

#[tactic(auto, using(crate::proofs::Productions::plain))]
fn new_call<'a, 's>(
    printer: &mut Printer<'a, 's>,
    callee: &'a Box<Expr<'s>>,
    arguments: &'a [Box<Expr<'s>>],
) -> Result<(), AllocError>
    ensures { OnOk result (outcome (job_of printer.new) ≡ with_tree (job_of printer.old) (node (expression New) (part (noted_expr callee.now.value) (part (list (forest (map (inside noted_expr) arguments.now))) none)))) }
{
    printer.sign(")")?;
    printer.exprs(arguments)?;
    printer.sign("(")?;
    printer.expr(callee)?;
    printer.sign("new ")
}

/// `new a`, which is laid with its parentheses.
#[tactic(auto, using(crate::proofs::Productions::planning))]
fn bare_new<'a, 's>(
    printer: &mut Printer<'a, 's>,
    callee: &'a Box<Expr<'s>>,
) -> Result<(), AllocError>
    ensures { OnOk result (outcome (job_of printer.new) ≡ with_tree (job_of printer.old) (node (expression NewWithoutArguments) (part (noted_expr callee.now.value) none))) }
{
    printer.sign("()")?;
    printer.expr(callee)?;
    printer.sign("new ")
}

#[tactic(auto, using(crate::proofs::Productions::planning))]
fn super_call<'a, 's>(
    printer: &mut Printer<'a, 's>,
    arguments: &'a [Box<Expr<'s>>],
) -> Result<(), AllocError>
    ensures { OnOk result (outcome (job_of printer.new) ≡ with_tree (job_of printer.old) (node (expression SuperCall) (part (list (forest (map (inside noted_expr) arguments.now))) none))) }
{
    printer.sign(")")?;
    printer.exprs(arguments)?;
    printer.sign("super(")
}

#[tactic(auto, using(crate::proofs::Productions::planning))]
fn super_member<'a, 's>(printer: &mut Printer<'a, 's>, name: &'a Text<'s>) -> Result<(), AllocError>
    ensures { OnOk result (outcome (job_of printer.new) ≡ with_tree (job_of printer.old) (node (expression SuperMember) (part (word name.now) none))) }
{
    printer.word(name)?;
    printer.sign("super.")
}

#[tactic(auto, using(crate::proofs::Productions::planning))]
fn super_index<'a, 's>(
    printer: &mut Printer<'a, 's>,
    index: &'a Box<Expr<'s>>,
) -> Result<(), AllocError>
    ensures { OnOk result (outcome (job_of printer.new) ≡ with_tree (job_of printer.old) (node (expression SuperIndex) (part (noted_expr index.now.value) none))) }
{
    printer.sign("]")?;
    printer.expr(index)?;
    printer.sign("super[")
}

#[tactic(auto, using(crate::proofs::Productions::planning))]
fn import_call<'a, 's>(
    printer: &mut Printer<'a, 's>,
    source: &'a Box<Expr<'s>>,
) -> Result<(), AllocError>
    ensures { OnOk result (outcome (job_of printer.new) ≡ with_tree (job_of printer.old) (node (expression ImportCall) (part (noted_expr source.now.value) none))) }
{
    printer.sign(")")?;
    printer.expr(source)?;
    printer.sign("import(")
}

#[tactic(auto, using(crate::proofs::Productions::planning))]
fn chain<'a, 's>(
    printer: &mut Printer<'a, 's>,
    object: &'a Box<Expr<'s>>,
    links: &'a [Box<Link<'s>>],
) -> Result<(), AllocError>
    ensures { OnOk result (outcome (job_of printer.new) ≡ with_tree (job_of printer.old) (node (expression Chain) (part (noted_expr object.now.value) (part (list (forest (map (inside noted_link) links.now))) none)))) }
{
    printer.links(links)?;
    printer.expr(object)
}

/// A link of an optional chain.
#[tactic(auto, using(crate::proofs::Productions::opening))]
pub(crate) fn open_link<'a, 's>(
    printer: &mut Printer<'a, 's>,
    link: &'a Box<Link<'s>>,
) -> Result<(), AllocError>
    ensures { OnOk result (outcome (job_of printer.new) ≡ with_tree (job_of printer.old) (noted_link link.now.value)) }
{
    match &**link {
        Link::Member(_, form, name) => name_link(printer, *form, name),
        Link::Index(_, form, index) => index_link(printer, *form, index),
        Link::Call(_, form, arguments) => call_link(printer, *form, arguments),
    }
}

#[tactic(auto, using(crate::proofs::Productions::planning))]
fn name_link<'a, 's>(
    printer: &mut Printer<'a, 's>,
    form: LinkForm,
    name: &'a Text<'s>,
) -> Result<(), AllocError>
    ensures { OnOk result (outcome (job_of printer.new) ≡ with_tree (job_of printer.old) (node (expression (NameLink (is_optional form))) (part (word name.now) none))) }
{
    printer.word(name)?;
    printer.sign(dot(form))
}

#[tactic(auto, using(crate::proofs::Productions::planning))]
fn index_link<'a, 's>(
    printer: &mut Printer<'a, 's>,
    form: LinkForm,
    index: &'a Box<Expr<'s>>,
) -> Result<(), AllocError>
    ensures { OnOk result (outcome (job_of printer.new) ≡ with_tree (job_of printer.old) (node (expression (IndexLink (is_optional form))) (part (noted_expr index.now.value) none))) }
{
    printer.sign("]")?;
    printer.expr(index)?;
    printer.sign(before_index(form))
}

#[tactic(auto, using(crate::proofs::Productions::planning))]
fn call_link<'a, 's>(
    printer: &mut Printer<'a, 's>,
    form: LinkForm,
    arguments: &'a [Box<Expr<'s>>],
) -> Result<(), AllocError>
    ensures { OnOk result (outcome (job_of printer.new) ≡ with_tree (job_of printer.old) (node (expression (CallLink (is_optional form))) (part (list (forest (map (inside noted_expr) arguments.now))) none))) }
{
    printer.sign(")")?;
    printer.exprs(arguments)?;
    printer.sign(before_call(form))
}
