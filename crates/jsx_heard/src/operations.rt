//! Operators and arrows, and what goes on with an expression to the right.

ghost use Rattle.std.specs.Prelude.{◌≡◌, ◌++◌, OnOk, map, [], codes};
ghost use Rattle.jsx_base.specs.Token.{same};
ghost use Rattle.jsx_tree.specs.Kinds.{Assigns};
ghost use Rattle.jsx_tree.specs.Clashes.{eval_at};
ghost use Rattle.jsx_tree.specs.Told.{tales, told_access, told_expr, told_link, told_operation, told_pat};
ghost use Rattle.jsx_tree.specs.View.{inside, forest, view_access, view_expr, view_link, view_operation, view_pattern, text_of};
ghost use Rattle.jsx_names.specs.Events.{Plain, called};
ghost use Rattle.jsx_names.specs.Heard.{bare_all};
ghost use Rattle.jsx_heard.specs.Said.{Unnamed, Elsewhere, each_met, its, met_all, said, said_each, of_value};

use crate::mode::Mode;
use crate::names::{characters, place};
use crate::walk::Walker;
use jsx_names::Event;
use jsx_tree::{Access, Expr, Link, Operation, Pat, Text};
use std::alloc::AllocError;

fn is_eval(name: &Text<'_>) -> bool
    ensures { result ≡ same (text_of name.now) (codes "eval") }
{
    characters(name) == "eval"
}

/// A direct call of `eval`, where it is called, parentheses aside (ECMA-262 section 13.3.6.1).
#[cycle(eval)]
fn eval<'t>(events: &mut Vec<Event<'t>>, callee: &Expr<'_>) -> Result<(), AllocError>
    ensures { OnOk result (met_all events.new.items ≡ met_all events.old.items ++ each_met (its (told_expr callee.now)) (bare_all (called (eval_at [] (view_expr callee.now))))) }
{
    match callee {
        Expr::Ident(_, name) => {
            if is_eval(&name.text) {
                events.push(Event::Evals(place(&name.text)))?;
            }
            Ok(())
        }
        Expr::Paren(_, callee) => eval(events, callee),
        Expr::Literal(..)
        | Expr::Word(..)
        | Expr::Operation(..)
        | Expr::Access(..)
        | Expr::Array(..)
        | Expr::Object(..)
        | Expr::Template(..)
        | Expr::Function(..)
        | Expr::Class(..)
        | Expr::Jsx(..) => Ok(()),
    }
}

impl Walker {
    #[cycle(walk)]
    pub(crate) fn operation<'t>(
        self,
        events: &mut Vec<Event<'t>>,
        operation: &'t Operation<'_>,
    ) -> Result<(), AllocError>
        ensures { OnOk result (met_all events.new.items ≡ met_all events.old.items ++ of_value (view_operation operation.now) (told_operation operation.now)) }
    {
        match operation {
            Operation::Seq(_, items) => self.exprs(events, items),
            Operation::Assign(_, target, value) => self.assignment(events, target, value),
            Operation::OpAssign(_, _, target, value) => self.assignment(events, target, value),
            Operation::Arrow(_, parameters, value) => self.arrow(events, parameters, value),
            Operation::ArrowBlock(_, parameters, _, body) => self.code(events, parameters, body),
            Operation::BareArrow(_, parameter, value) => self.bare_arrow(events, parameter, value),
            Operation::BareArrowBlock(_, parameter, _, body) => {
                self.bare_code(events, parameter, body)
            }
            Operation::Cond(_, test, then, other) => {
                self.expr(events, test)?;
                self.expr(events, then)?;
                self.expr(events, other)
            }
            Operation::Binary(_, _, left, right) => {
                self.expr(events, left)?;
                self.expr(events, right)
            }
            Operation::Unary(_, _, operand) => self.expr(events, operand),
            Operation::Spread(_, operand) => self.expr(events, operand),
            Operation::Update(_, _, _, target) => self.pattern(events, Mode::Plain, target),
            Operation::Hole => Ok(()),
        }
    }

    /// What is assigned to, and the value (ECMA-262 section 13.15).
    #[cycle(walk)]
    fn assignment<'t>(
        self,
        events: &mut Vec<Event<'t>>,
        target: &'t Pat<'_>,
        value: &'t Expr<'_>,
    ) -> Result<(), AllocError>
        ensures { OnOk result (met_all events.new.items ≡ met_all events.old.items ++ (of_value (view_pattern target.now Assigns) (told_pat target.now) ++ of_value (view_expr value.now) (told_expr value.now))) }
    {
        self.pattern(events, Mode::Plain, target)?;
        self.expr(events, value)
    }

    #[cycle(walk)]
    pub(crate) fn access<'t>(
        self,
        events: &mut Vec<Event<'t>>,
        access: &'t Access<'_>,
    ) -> Result<(), AllocError>
        ensures { OnOk result (met_all events.new.items ≡ met_all events.old.items ++ of_value (view_access access.now) (told_access access.now)) }
    {
        match access {
            Access::Call(_, callee, arguments) => {
                eval(events, callee)?;
                self.expr(events, callee)?;
                self.exprs(events, arguments)
            }
            Access::Index(_, object, index) => {
                self.expr(events, object)?;
                self.expr(events, index)
            }
            Access::New(_, object, arguments) => {
                self.expr(events, object)?;
                self.exprs(events, arguments)
            }
            Access::Tagged(_, tag, _, pieces, parts) => {
                self.expr(events, tag)?;
                self.template(events, pieces, parts)
            }
            Access::SuperCall(_, arguments) => self.exprs(events, arguments),
            Access::SuperMember(..) => Ok(()),
            Access::Member(_, object, _) => self.expr(events, object),
            Access::NewWithoutArguments(_, object) => self.expr(events, object),
            Access::SuperIndex(_, index) => self.expr(events, index),
            Access::ImportCall(_, specifier) => self.expr(events, specifier),
            Access::Chain(_, object, links) => {
                self.expr(events, object)?;
                self.links(events, links)
            }
        }
    }

    #[cycle(walk)]
    fn links<'t>(
        self,
        events: &mut Vec<Event<'t>>,
        links: &'t [Box<Link<'_>>],
    ) -> Result<(), AllocError>
        ensures { OnOk result (met_all events.new.items ≡ met_all events.old.items ++ said_each Plain Unnamed Elsewhere (forest (map (inside view_link) links.now)) (tales (map (inside told_link) links.now))) }
    {
        for link in links {
            self.link(events, link)?;
        }
        Ok(())
    }

    #[cycle(walk)]
    fn link<'t>(self, events: &mut Vec<Event<'t>>, link: &'t Link<'_>) -> Result<(), AllocError>
        ensures { OnOk result (met_all events.new.items ≡ met_all events.old.items ++ said Plain Unnamed Elsewhere (view_link link.now) (told_link link.now)) }
    {
        match link {
            Link::Member(..) => Ok(()),
            Link::Index(_, _, index) => self.expr(events, index),
            Link::Call(_, _, arguments) => self.exprs(events, arguments),
        }
    }
}
