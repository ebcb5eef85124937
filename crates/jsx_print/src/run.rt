//! What is left to print, one after the other.

ghost use Rattle.std.specs.Prelude.{◌≡◌, OnOk};
ghost use Rattle.jsx_plan.specs.Plan.{Piece, Spans, behind, did, job_of, outcome, pen_of, seen};

use crate::access::open_link;
use crate::control::open_control;
use crate::expressions::open_expr;
use crate::members::open_member;
use crate::module::open_items;
use crate::statements::open_stmt;
use jsx_plan::{Node, Printer};
use std::alloc::AllocError;

/// The next of what is left.
#[tactic(auto, using(crate::proofs::Productions::stepping))]
fn write_node<'a, 's>(printer: &mut Printer<'a, 's>, node: Node<'a, 's>) -> Result<(), AllocError>
    ensures { OnOk result (outcome (job_of printer.new) ≡ behind (job_of printer.old) (did (pen_of (job_of printer.old)) (seen node.entry))) }
{
    match node {
        Node::Sign(sign) => printer.pen.token(sign),
        Node::Raw(sign) => printer.pen.put(sign),
        Node::Step(step) => printer.pen.step(step),
        Node::Place(at) => printer.pen.call(at),
        Node::Word(text) => printer.pen.word(text),
        Node::Piece(text) => printer.pen.piece(text),
        Node::Expr(expr) => open_expr(printer, expr),
        Node::Stmt(stmt) => open_stmt(printer, stmt),
        Node::Control(control) => open_control(printer, control),
        Node::Pat(pat, role) => printer.open_pat(pat, role),
        Node::Member(member, owner) => open_member(printer, member, owner),
        Node::Link(link) => open_link(printer, link),
        Node::Exprs(xs) => printer.open_exprs(xs),
        Node::MoreExprs(xs) => printer.open_more_exprs(xs),
        Node::Pats(xs, role) => printer.open_pats(xs, role),
        Node::MorePats(xs, role) => printer.open_more_pats(xs, role),
        Node::Props(xs) => printer.open_props(xs),
        Node::MoreProps(xs) => printer.open_more_props(xs),
        Node::Members(xs) => printer.open_members(xs),
        Node::Stmts(xs) => printer.open_stmts(xs),
        Node::TopStmts(xs) => printer.open_top_stmts(xs),
        Node::Cases(xs) => printer.open_cases(xs),
        Node::Links(xs) => printer.open_links(xs),
        Node::Directives(xs) => printer.open_directives(xs),
        Node::TopDirectives(xs) => printer.open_top_directives(xs),
        Node::Items(items, i) => open_items(printer, items, i),
        Node::Specifiers(xs, side, i) => printer.open_specifiers(xs, side, i),
        Node::MoreSpecifiers(xs, side, i) => printer.open_more_specifiers(xs, side, i),
        Node::Spans(pieces, exprs) => printer.open_spans(pieces, exprs),
    }
}

/// All that is left.
#[tactic(auto, using(crate::proofs::Productions::running))]
pub(crate) fn run<'a, 's>(printer: &mut Printer<'a, 's>) -> Result<(), AllocError>
    ensures { OnOk result (pen_of (job_of printer.new) ≡ outcome (job_of printer.old)) }
{
    for _turn in 0..u64::MAX {
        match printer.todo.pop() {
            Some(node) => write_node(printer, node)?,
            None => return Ok(()),
        }
    }
    Err(AllocError)
}
