//! The members of object literals and of classes (ECMA-262 sections 13.2.5 and 15.4 to 15.7).

ghost use Rattle.std.specs.Prelude.{◌≡◌, OnOk, map};
ghost use Rattle.jsx_pen.specs.Pen.{marked};
ghost use Rattle.jsx_plan.specs.Plan.{behind, job_of, outcome, owner_of, pen_of, with_tree};
ghost use Rattle.jsx_print.specs.Members.{holder_in};
ghost use Rattle.jsx_tree.specs.Kinds.{Binds, Field, Getter, Method, Property, Setter, expression, function, list, node, none, part};
ghost use Rattle.jsx_tree.specs.View.{body, forest_at, holder_of, inside, optional_of};
ghost use Rattle.jsx_plan.specs.Noted.{noted_expr, noted_key, noted_member, noted_pattern, noted_stmt};

use crate::expressions::spread;
use jsx_plan::{Owner, Printer, Role};
use jsx_tree::{Expr, Key, Pat, Placement, Prop, Stmt, Text};
use std::alloc::AllocError;

/// A member of an object or of a class.
#[tactic(auto, using(crate::proofs::Productions::variants))]
pub(crate) fn open_member<'a, 's>(
    printer: &mut Printer<'a, 's>,
    member: &'a Box<Prop<'s>>,
    owner: Owner,
) -> Result<(), AllocError>
    ensures { OnOk result (outcome (job_of printer.new) ≡ with_tree (job_of printer.old) (noted_member member.now.value (owner_of owner))) }
{
    match &**member {
        Prop::Pair(_, key, value) => pair(printer, key, value),
        Prop::Shorthand(_, name) => printer.word(&name.text),
        Prop::Spread(_, value) => spread(printer, value),
        Prop::Method(_, placement, key, params, directives, stmts) => {
            method(printer, owner, *placement, key, params, directives, stmts)
        }
        Prop::Getter(_, placement, key, directives, stmts) => getter(
            printer,
            holder_at(owner, *placement),
            key,
            directives,
            stmts,
        ),
        Prop::Setter(_, placement, key, param, directives, stmts) => {
            setter(
                printer,
                holder_at(owner, *placement),
                key,
                param,
                directives,
                stmts,
            )
        }
        Prop::Field(_, placement, key, value) => field(
            printer,
            holder_at(owner, *placement),
            key,
            value,
        ),
    }
}

#[tactic(auto, using(crate::proofs::Productions::planning))]
fn pair<'a, 's>(
    printer: &mut Printer<'a, 's>,
    key: &'a Key<'s>,
    value: &'a Box<Expr<'s>>,
) -> Result<(), AllocError>
    ensures { OnOk result (outcome (job_of printer.new) ≡ with_tree (job_of printer.old) (node (expression Property) (part (noted_key key.now) (part (noted_expr value.now.value) none)))) }
{
    printer.expr(value)?;
    printer.sign(": ")?;
    printer.key(key)
}

#[tactic(auto, using(crate::proofs::Productions::planning))]
fn method<'a, 's>(
    printer: &mut Printer<'a, 's>,
    owner: Owner,
    placement: Placement,
    key: &'a Key<'s>,
    params: &'a [Box<Pat<'s>>],
    directives: &'a [Text<'s>],
    stmts: &'a [Box<Stmt<'s>>],
) -> Result<(), AllocError>
    ensures { OnOk result (outcome (job_of printer.new) ≡ with_tree (job_of printer.old) (node (function (Method (holder_of (owner_of owner) placement))) (part (noted_key key.now) (part (list (forest_at Binds (map (inside noted_pattern) params.now))) (part (body directives.now (map (inside noted_stmt) stmts.now)) none))))) }
{
    printer.body(directives, stmts)?;
    printer.sign(") ")?;
    printer.pats(params, Role::Binds)?;
    printer.sign("(")?;
    printer.key(key)?;
    mark(printer, holder_at(owner, placement))
}

#[tactic(auto, using(crate::proofs::Productions::accessors))]
fn getter<'a, 's>(
    printer: &mut Printer<'a, 's>,
    holder: Holder,
    key: &'a Key<'s>,
    directives: &'a [Text<'s>],
    stmts: &'a [Box<Stmt<'s>>],
) -> Result<(), AllocError>
    ensures { OnOk result (outcome (job_of printer.new) ≡ with_tree (job_of printer.old) (node (function (Getter (holder_in holder))) (part (noted_key key.now) (part (body directives.now (map (inside noted_stmt) stmts.now)) none)))) }
{
    printer.body(directives, stmts)?;
    printer.sign("() ")?;
    printer.key(key)?;
    printer.sign("get ")?;
    mark(printer, holder)
}

#[tactic(auto, using(crate::proofs::Productions::accessors))]
fn setter<'a, 's>(
    printer: &mut Printer<'a, 's>,
    holder: Holder,
    key: &'a Key<'s>,
    param: &'a Box<Pat<'s>>,
    directives: &'a [Text<'s>],
    stmts: &'a [Box<Stmt<'s>>],
) -> Result<(), AllocError>
    ensures { OnOk result (outcome (job_of printer.new) ≡ with_tree (job_of printer.old) (node (function (Setter (holder_in holder))) (part (noted_key key.now) (part (noted_pattern param.now.value Binds) (part (body directives.now (map (inside noted_stmt) stmts.now)) none))))) }
{
    printer.body(directives, stmts)?;
    printer.sign(") ")?;
    printer.pat(param, Role::Binds)?;
    printer.sign("(")?;
    printer.key(key)?;
    printer.sign("set ")?;
    mark(printer, holder)
}

#[tactic(auto, using(crate::proofs::Productions::planning))]
fn field<'a, 's>(
    printer: &mut Printer<'a, 's>,
    holder: Holder,
    key: &'a Key<'s>,
    value: &'a Option<Box<Expr<'s>>>,
) -> Result<(), AllocError>
    ensures { OnOk result (outcome (job_of printer.new) ≡ with_tree (job_of printer.old) (node (function (Field (holder_in holder))) (part (noted_key key.now) (part (optional_of noted_expr value.now) none)))) }
{
    printer.sign(";")?;
    printer.led_expr(" = ", value)?;
    printer.key(key)?;
    mark(printer, holder)
}

/// `static `, before a member of the class itprinter.
#[tactic(auto, using(crate::proofs::Productions::planning))]
fn mark<'a, 's>(printer: &mut Printer<'a, 's>, holder: Holder) -> Result<(), AllocError>
    ensures { OnOk result (outcome (job_of printer.new) ≡ behind (job_of printer.old) (marked (pen_of (job_of printer.old)) (holder_in holder))) }
{
    match holder {
        Holder::Static => printer.sign("static "),
        Holder::Object | Holder::Class => Ok(()),
    }
}

/// Where a member stands.
#[derive(Clone, Copy)]
enum Holder {
    Object,
    Class,
    Static,
}

fn holder_at(owner: Owner, placement: Placement) -> Holder
    ensures { holder_in result ≡ holder_of (owner_of owner) placement }
{
    match owner {
        Owner::Object => Holder::Object,
        Owner::Class => match placement {
            Placement::Instance => Holder::Class,
            Placement::Static => Holder::Static,
        },
    }
}
