//! Expressions (ECMA-262 section 13), each planned by its parts: what comes last is planned first.

ghost use Rattle.std.specs.Prelude.{◌≡◌, OnOk, map};
ghost use Rattle.jsx_pen.specs.Pen.{inked, prefix_signs, puts, signs};
ghost use Rattle.jsx_plan.specs.Plan.{behind, job_of, outcome, pen_of, with_tree};
ghost use Rattle.jsx_tree.specs.Kinds.{Array, Arrow, ArrowBlock, Assign, Assigns, BareArrow, BareArrowBlock, Binary, Binds, Cond, ImportMeta, NewTarget, Object, OpAssign, Parenthesized, Spread, Unary, expression, list, node, none, part};
ghost use Rattle.jsx_tree.specs.Nonterminals.{update};
ghost use Rattle.jsx_tree.specs.View.{body, forest, forest_at, inside, members_of_object, name_of, view_word};
ghost use Rattle.jsx_tree.specs.ViewOperators.{assign_of, binary_of, step_of, unary_of, update_of};
ghost use Rattle.jsx_plan.specs.Noted.{noted_expr, noted_member, noted_operation, noted_pattern, noted_stmt};

use crate::access::open_access;
use crate::functions::{class_expr, function_expr};
use jsx_pen::{Step, assign_text, infix, step_text};
use jsx_plan::{Printer, Role, array_end};
use jsx_tree::{
    AssignOp, BinaryOp, Expr, Ident, Operation, Pat, Prop, Stmt, Text, UnaryOp, UpdateOp,
    UpdateSide, Word,
};
use std::alloc::AllocError;

/// An expression.
#[tactic(auto, using(crate::proofs::Productions::opening))]
pub(crate) fn open_expr<'a, 's>(
    printer: &mut Printer<'a, 's>,
    expr: &'a Box<Expr<'s>>,
) -> Result<(), AllocError>
    ensures { OnOk result (outcome (job_of printer.new) ≡ with_tree (job_of printer.old) (noted_expr expr.now.value)) }
{
    match &**expr {
        Expr::Ident(_, name) => printer.word(&name.text),
        Expr::Literal(_, _, text) => printer.word(text),
        Expr::Word(_, word) => fixed(printer, *word),
        Expr::Operation(operation) => open_operation(printer, operation),
        Expr::Access(access) => open_access(printer, access),
        Expr::Array(_, items) => array(printer, items),
        Expr::Object(_, props) => object(printer, props),
        Expr::Template(_, pieces, exprs) => printer.template(pieces, exprs),
        Expr::Function(_, name, params, directives, stmts) => function_expr(
            printer, name, params, directives, stmts,
        ),
        Expr::Class(_, name, parent, members) => class_expr(printer, name, parent, members),
        // A program that fits has none.
        Expr::Jsx(_) => Err(AllocError),
        Expr::Paren(_, inner) => paren(printer, inner),
    }
}

/// `this`, `null` and the like.
#[tactic(auto, using(crate::proofs::Productions::plain))]
fn fixed<'a, 's>(printer: &mut Printer<'a, 's>, word: Word) -> Result<(), AllocError>
    ensures { OnOk result (outcome (job_of printer.new) ≡ with_tree (job_of printer.old) (view_word word)) }
{
    match word {
        Word::This => printer.sign("this"),
        Word::Null => printer.sign("null"),
        Word::True => printer.sign("true"),
        Word::False => printer.sign("false"),
        Word::ImportMeta => import_meta(printer),
        Word::NewTarget => new_target(printer),
    }
}

fn import_meta<'a, 's>(printer: &mut Printer<'a, 's>) -> Result<(), AllocError>
    ensures { OnOk result (outcome (job_of printer.new) ≡ with_tree (job_of printer.old) (node (expression ImportMeta) none)) }
{
    printer.sign("import.meta")
}

fn new_target<'a, 's>(printer: &mut Printer<'a, 's>) -> Result<(), AllocError>
    ensures { OnOk result (outcome (job_of printer.new) ≡ with_tree (job_of printer.old) (node (expression NewTarget) none)) }
{
    printer.sign("new.target")
}

#[tactic(auto, using(crate::proofs::Productions::plain))]
fn paren<'a, 's>(printer: &mut Printer<'a, 's>, inner: &'a Box<Expr<'s>>) -> Result<(), AllocError>
    ensures { OnOk result (outcome (job_of printer.new) ≡ with_tree (job_of printer.old) (node (expression Parenthesized) (part (noted_expr inner.now.value) none))) }
{
    printer.sign(")")?;
    printer.expr(inner)?;
    printer.sign("(")
}

/// `[a, , ...b]`
#[tactic(auto, using(crate::proofs::Productions::arrays))]
fn array<'a, 's>(
    printer: &mut Printer<'a, 's>,
    items: &'a [Box<Expr<'s>>],
) -> Result<(), AllocError>
    ensures { OnOk result (outcome (job_of printer.new) ≡ with_tree (job_of printer.old) (node (expression Array) (part (list (forest (map (inside noted_expr) items.now))) none))) }
{
    printer.sign(array_end(items))?;
    printer.exprs(items)?;
    printer.sign("[")
}

/// `{ a, b: c }`
#[tactic(auto, using(crate::proofs::Productions::plain))]
fn object<'a, 's>(
    printer: &mut Printer<'a, 's>,
    props: &'a [Box<Prop<'s>>],
) -> Result<(), AllocError>
    ensures { OnOk result (outcome (job_of printer.new) ≡ with_tree (job_of printer.old) (node (expression Object) (part (list (members_of_object (map (inside noted_member) props.now))) none))) }
{
    printer.sign("}")?;
    printer.step(Step::Pad)?;
    printer.props(props)?;
    printer.step(Step::Pad)?;
    printer.sign("{")
}

/// Operators and arrows.
#[tactic(auto, using(crate::proofs::Productions::opening))]
fn open_operation<'a, 's>(
    printer: &mut Printer<'a, 's>,
    operation: &'a Operation<'s>,
) -> Result<(), AllocError>
    ensures { OnOk result (outcome (job_of printer.new) ≡ with_tree (job_of printer.old) (noted_operation operation.now)) }
{
    match operation {
        Operation::Seq(_, exprs) => printer.exprs(exprs),
        Operation::Assign(_, target, value) => assign(printer, target, value),
        Operation::OpAssign(_, op, target, value) => op_assign(printer, *op, target, value),
        Operation::Arrow(_, params, value) => arrow(printer, params, value),
        Operation::ArrowBlock(_, params, directives, stmts) => arrow_block(
            printer, params, directives, stmts,
        ),
        Operation::BareArrow(_, param, value) => bare_arrow(printer, param, value),
        Operation::BareArrowBlock(_, param, directives, stmts) => bare_arrow_block(
            printer, param, directives, stmts,
        ),
        Operation::Cond(_, test, yes, no) => cond(printer, test, yes, no),
        Operation::Binary(_, op, left, right) => binary(printer, *op, left, right),
        Operation::Unary(_, op, operand) => unary(printer, *op, operand),
        Operation::Update(_, op, side, target) => update(printer, *op, *side, target),
        Operation::Spread(_, operand) => spread(printer, operand),
        Operation::Hole => Ok(()),
    }
}

#[tactic(auto, using(crate::proofs::Productions::plain))]
fn assign<'a, 's>(
    printer: &mut Printer<'a, 's>,
    target: &'a Box<Pat<'s>>,
    value: &'a Box<Expr<'s>>,
) -> Result<(), AllocError>
    ensures { OnOk result (outcome (job_of printer.new) ≡ with_tree (job_of printer.old) (node (expression Assign) (part (noted_pattern target.now.value Assigns) (part (noted_expr value.now.value) none)))) }
{
    printer.expr(value)?;
    printer.raw(" = ")?;
    printer.pat(target, Role::Assigns)
}

#[tactic(auto, using(crate::proofs::Productions::planning))]
fn op_assign<'a, 's>(
    printer: &mut Printer<'a, 's>,
    op: AssignOp,
    target: &'a Box<Pat<'s>>,
    value: &'a Box<Expr<'s>>,
) -> Result<(), AllocError>
    ensures { OnOk result (outcome (job_of printer.new) ≡ with_tree (job_of printer.old) (node (expression (OpAssign (assign_of op))) (part (noted_pattern target.now.value Assigns) (part (noted_expr value.now.value) none)))) }
{
    printer.expr(value)?;
    printer.raw(assign_text(op))?;
    printer.pat(target, Role::Assigns)
}

#[tactic(auto, using(crate::proofs::Productions::plain))]
fn arrow<'a, 's>(
    printer: &mut Printer<'a, 's>,
    params: &'a [Box<Pat<'s>>],
    value: &'a Box<Expr<'s>>,
) -> Result<(), AllocError>
    ensures { OnOk result (outcome (job_of printer.new) ≡ with_tree (job_of printer.old) (node (expression Arrow) (part (list (forest_at Binds (map (inside noted_pattern) params.now))) (part (noted_expr value.now.value) none)))) }
{
    printer.expr(value)?;
    printer.sign(") => ")?;
    printer.pats(params, Role::Binds)?;
    printer.sign("(")
}

#[tactic(auto, using(crate::proofs::Productions::plain))]
fn arrow_block<'a, 's>(
    printer: &mut Printer<'a, 's>,
    params: &'a [Box<Pat<'s>>],
    directives: &'a [Text<'s>],
    stmts: &'a [Box<Stmt<'s>>],
) -> Result<(), AllocError>
    ensures { OnOk result (outcome (job_of printer.new) ≡ with_tree (job_of printer.old) (node (expression ArrowBlock) (part (list (forest_at Binds (map (inside noted_pattern) params.now))) (part (body directives.now (map (inside noted_stmt) stmts.now)) none)))) }
{
    printer.body(directives, stmts)?;
    printer.sign(") => ")?;
    printer.pats(params, Role::Binds)?;
    printer.sign("(")
}

/// A lone name, which is laid in parentheses.
#[tactic(auto, using(crate::proofs::Productions::plain))]
fn bare_arrow<'a, 's>(
    printer: &mut Printer<'a, 's>,
    param: &'a Ident<'s>,
    value: &'a Box<Expr<'s>>,
) -> Result<(), AllocError>
    ensures { OnOk result (outcome (job_of printer.new) ≡ with_tree (job_of printer.old) (node (expression BareArrow) (part (name_of param.now) (part (noted_expr value.now.value) none)))) }
{
    printer.expr(value)?;
    printer.sign(") => ")?;
    printer.word(&param.text)?;
    printer.sign("(")
}

#[tactic(auto, using(crate::proofs::Productions::plain))]
fn bare_arrow_block<'a, 's>(
    printer: &mut Printer<'a, 's>,
    param: &'a Ident<'s>,
    directives: &'a [Text<'s>],
    stmts: &'a [Box<Stmt<'s>>],
) -> Result<(), AllocError>
    ensures { OnOk result (outcome (job_of printer.new) ≡ with_tree (job_of printer.old) (node (expression BareArrowBlock) (part (name_of param.now) (part (body directives.now (map (inside noted_stmt) stmts.now)) none)))) }
{
    printer.body(directives, stmts)?;
    printer.sign(") => ")?;
    printer.word(&param.text)?;
    printer.sign("(")
}

#[tactic(auto, using(crate::proofs::Productions::plain))]
fn cond<'a, 's>(
    printer: &mut Printer<'a, 's>,
    test: &'a Box<Expr<'s>>,
    yes: &'a Box<Expr<'s>>,
    no: &'a Box<Expr<'s>>,
) -> Result<(), AllocError>
    ensures { OnOk result (outcome (job_of printer.new) ≡ with_tree (job_of printer.old) (node (expression Cond) (part (noted_expr test.now.value) (part (noted_expr yes.now.value) (part (noted_expr no.now.value) none))))) }
{
    printer.expr(no)?;
    printer.raw(" : ")?;
    printer.expr(yes)?;
    printer.raw(" ? ")?;
    printer.expr(test)
}

#[tactic(auto, using(crate::proofs::Productions::planning))]
fn binary<'a, 's>(
    printer: &mut Printer<'a, 's>,
    op: BinaryOp,
    left: &'a Box<Expr<'s>>,
    right: &'a Box<Expr<'s>>,
) -> Result<(), AllocError>
    ensures { OnOk result (outcome (job_of printer.new) ≡ with_tree (job_of printer.old) (node (expression (Binary (binary_of op))) (part (noted_expr left.now.value) (part (noted_expr right.now.value) none)))) }
{
    printer.expr(right)?;
    printer.raw(infix(op))?;
    printer.expr(left)
}

#[tactic(auto, using(crate::proofs::Productions::planning))]
fn unary<'a, 's>(
    printer: &mut Printer<'a, 's>,
    op: UnaryOp,
    operand: &'a Box<Expr<'s>>,
) -> Result<(), AllocError>
    ensures { OnOk result (outcome (job_of printer.new) ≡ with_tree (job_of printer.old) (node (expression (Unary (unary_of op))) (part (noted_expr operand.now.value) none))) }
{
    printer.expr(operand)?;
    prefix(printer, op)
}

/// An operator before its operand.
#[tactic(auto, using(crate::proofs::Productions::planning))]
fn prefix<'a, 's>(printer: &mut Printer<'a, 's>, op: UnaryOp) -> Result<(), AllocError>
    ensures { OnOk result (outcome (job_of printer.new) ≡ behind (job_of printer.old) (puts (pen_of (job_of printer.old)) (prefix_signs (unary_of op)))) }
{
    match op {
        UnaryOp::Delete => printer.sign("delete "),
        UnaryOp::Void => printer.sign("void "),
        UnaryOp::TypeOf => printer.sign("typeof "),
        UnaryOp::Positive => printer.step(Step::Plus),
        UnaryOp::Negative => printer.step(Step::Minus),
        UnaryOp::Complement => printer.sign("~"),
        UnaryOp::Not => printer.sign("!"),
    }
}

#[tactic(auto, using(crate::proofs::Productions::planning))]
fn update<'a, 's>(
    printer: &mut Printer<'a, 's>,
    op: UpdateOp,
    side: UpdateSide,
    target: &'a Box<Pat<'s>>,
) -> Result<(), AllocError>
    ensures { OnOk result (outcome (job_of printer.new) ≡ with_tree (job_of printer.old) (node (expression (update_of op side)) (part (noted_pattern target.now.value Assigns) none))) }
{
    match side {
        UpdateSide::Before => update_before(printer, op, target),
        UpdateSide::After => update_after(printer, op, target),
    }
}

#[tactic(auto, using(crate::proofs::Productions::planning))]
fn update_before<'a, 's>(
    printer: &mut Printer<'a, 's>,
    op: UpdateOp,
    target: &'a Box<Pat<'s>>,
) -> Result<(), AllocError>
    ensures { OnOk result (outcome (job_of printer.new) ≡ behind (job_of printer.old) (puts (inked (pen_of (job_of printer.old)) (update (step_of op))) (signs (noted_pattern target.now.value Assigns)))) }
{
    printer.pat(target, Role::Assigns)?;
    printer.sign(step_text(op))
}

#[tactic(auto, using(crate::proofs::Productions::planning))]
fn update_after<'a, 's>(
    printer: &mut Printer<'a, 's>,
    op: UpdateOp,
    target: &'a Box<Pat<'s>>,
) -> Result<(), AllocError>
    ensures { OnOk result (outcome (job_of printer.new) ≡ behind (job_of printer.old) (inked (puts (pen_of (job_of printer.old)) (signs (noted_pattern target.now.value Assigns))) (update (step_of op)))) }
{
    printer.sign(step_text(op))?;
    printer.pat(target, Role::Assigns)
}

#[tactic(auto, using(crate::proofs::Productions::planning))]
pub(crate) fn spread<'a, 's>(
    printer: &mut Printer<'a, 's>,
    operand: &'a Box<Expr<'s>>,
) -> Result<(), AllocError>
    ensures { OnOk result (outcome (job_of printer.new) ≡ with_tree (job_of printer.old) (node (expression Spread) (part (noted_expr operand.now.value) none))) }
{
    printer.expr(operand)?;
    printer.sign("...")
}
