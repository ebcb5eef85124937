//! A printer: the text so far, and what is left to print.

ghost use Rattle.std.specs.Prelude.{◌≡◌, IfOk, IsTrue, OnOk, codes, drop, map, string_bytes};
ghost use Rattle.std.specs.Str.{chars};
ghost use Rattle.jsx_pen.specs.Ascii.{is_ascii};
ghost use Rattle.jsx_pen.specs.Pen.{portion_of};
ghost use Rattle.jsx_plan.specs.Plan.{Commas, Does, Ended, Ink, Joined, Lead, Many, MoreCommas, OnLines, Piece, Put, Spans, filled, fresh, job_of, keyed, led, led_boxed, led_name, may, may_boxed, may_name, may_place, owner_of, pen_of, pushed, role_of, seen, side_of, templ};
ghost use Rattle.jsx_tree.specs.View.{directive, forest, forest_at, inside, members_of_class, members_of_object, optional_at_of, optional_of, text_of};
ghost use Rattle.jsx_tree.specs.ViewProgram.{view_specifier};
ghost use Rattle.jsx_plan.specs.Noted.{noted_control, noted_expr, noted_item, noted_key, noted_link, noted_member, noted_pattern, noted_stmt};

use crate::node::{Node, Owner, Role, Side};
use jsx_base::Span;
use jsx_pen::{Draft, Pen, Step};
use jsx_tree::{Control, Expr, Ident, Item, Key, Link, Pat, Prop, Specifier, Stmt, Text};
use std::alloc::{AllocError, Global};

/// The text so far, and what is left to print, the next one last.
#[derive(Drop)]
pub struct Printer<'a, 's> {
    pub pen: Pen,
    pub todo: Vec<Node<'a, 's>>,
}

impl<'a, 's> Printer<'a, 's> {
    /// A printer that has nothing to print.
    ///
    /// # Errors
    ///
    /// `AllocError` for want of memory.
    #[tactic(auto, using(crate::proofs::Planning::running))]
    pub fn new(alloc: Global) -> Result<Self, AllocError>
        ensures { IfOk result (λ printer. job_of printer ≡ fresh) }
    {
        Ok(Printer {
            pen: Pen::new(alloc)?,
            todo: Vec::new(alloc),
        })
    }

    /// What was written.
    #[tactic(auto, using(crate::proofs::Planning::running))]
    pub fn finish(self) -> Draft
        ensures stretches { map portion_of result.stretches.items ≡ (pen_of (job_of self.entry)).done }
        ensures rest { chars (string_bytes result.rest) ≡ (pen_of (job_of self.entry)).written }
    {
        self.pen.finish()
    }

    #[tactic(auto, using(crate::proofs::Planning::pushing))]
    fn push(&mut self, node: Node<'a, 's>) -> Result<(), AllocError>
        ensures { OnOk result (job_of self.new ≡ pushed (job_of self.old) (seen node.entry)) }
    {
        self.todo.push(node)?;
        Ok(())
    }

    /// A token that the printer writes itself.
    #[tactic(auto, using(crate::proofs::Planning::ascii))]
    pub fn sign(&mut self, sign: &'static str) -> Result<(), AllocError>
        requires { IsTrue (is_ascii sign.now) }
        ensures { OnOk result (job_of self.new ≡ pushed (job_of self.old) (Ink sign.now)) }
    {
        self.push(Node::Sign(sign))
    }

    /// A sign that needs no blank before it.
    #[tactic(auto, using(crate::proofs::Planning::ascii))]
    pub fn raw(&mut self, sign: &'static str) -> Result<(), AllocError>
        requires { IsTrue (is_ascii sign.now) }
        ensures { OnOk result (job_of self.new ≡ pushed (job_of self.old) (Lead sign.now)) }
    {
        self.push(Node::Raw(sign))
    }

    pub fn step(&mut self, step: Step) -> Result<(), AllocError>
        ensures { OnOk result (job_of self.new ≡ pushed (job_of self.old) (Does step)) }
    {
        self.push(Node::Step(step))
    }

    /// Where a call begins, if it has a place.
    #[tactic(auto, using(crate::proofs::Planning::placing))]
    pub fn place(&mut self, at: Option<Span>) -> Result<(), AllocError>
        ensures { OnOk result (job_of self.new ≡ may_place (job_of self.old) at) }
    {
        match at {
            Some(span) => self.push(Node::Place(span.lo)),
            None => Ok(()),
        }
    }

    pub fn word(&mut self, text: &'a Text<'s>) -> Result<(), AllocError>
        ensures { OnOk result (job_of self.new ≡ pushed (job_of self.old) (Ink (text_of text.now))) }
    {
        self.push(Node::Word(text))
    }

    pub fn piece(&mut self, text: &'a Text<'s>) -> Result<(), AllocError>
        ensures { OnOk result (job_of self.new ≡ pushed (job_of self.old) (Piece (text_of text.now))) }
    {
        self.push(Node::Piece(text))
    }

    pub fn expr(&mut self, expr: &'a Box<Expr<'s>>) -> Result<(), AllocError>
        ensures { OnOk result (job_of self.new ≡ pushed (job_of self.old) (Put (noted_expr expr.now.value))) }
    {
        self.push(Node::Expr(expr))
    }

    pub fn stmt(&mut self, stmt: &'a Box<Stmt<'s>>) -> Result<(), AllocError>
        ensures { OnOk result (job_of self.new ≡ pushed (job_of self.old) (Put (noted_stmt stmt.now.value))) }
    {
        self.push(Node::Stmt(stmt))
    }

    pub fn control(&mut self, control: &'a Box<Control<'s>>) -> Result<(), AllocError>
        ensures { OnOk result (job_of self.new ≡ pushed (job_of self.old) (Put (noted_control control.now.value))) }
    {
        self.push(Node::Control(control))
    }

    pub fn pat(&mut self, pat: &'a Box<Pat<'s>>, role: Role) -> Result<(), AllocError>
        ensures { OnOk result (job_of self.new ≡ pushed (job_of self.old) (Put (noted_pattern pat.now.value (role_of role)))) }
    {
        self.push(Node::Pat(pat, role))
    }

    pub fn prop(&mut self, member: &'a Box<Prop<'s>>, owner: Owner) -> Result<(), AllocError>
        ensures { OnOk result (job_of self.new ≡ pushed (job_of self.old) (Put (noted_member member.now.value (owner_of owner)))) }
    {
        self.push(Node::Member(member, owner))
    }

    pub fn link(&mut self, link: &'a Box<Link<'s>>) -> Result<(), AllocError>
        ensures { OnOk result (job_of self.new ≡ pushed (job_of self.old) (Put (noted_link link.now.value))) }
    {
        self.push(Node::Link(link))
    }

    pub fn exprs(&mut self, xs: &'a [Box<Expr<'s>>]) -> Result<(), AllocError>
        ensures { OnOk result (job_of self.new ≡ pushed (job_of self.old) (Many Commas (forest (map (inside noted_expr) xs.now)))) }
    {
        self.push(Node::Exprs(xs))
    }

    pub fn more_exprs(&mut self, xs: &'a [Box<Expr<'s>>]) -> Result<(), AllocError>
        ensures { OnOk result (job_of self.new ≡ pushed (job_of self.old) (Many MoreCommas (forest (map (inside noted_expr) xs.now)))) }
    {
        self.push(Node::MoreExprs(xs))
    }

    pub fn pats(&mut self, xs: &'a [Box<Pat<'s>>], role: Role) -> Result<(), AllocError>
        ensures { OnOk result (job_of self.new ≡ pushed (job_of self.old) (Many Commas (forest_at (role_of role) (map (inside noted_pattern) xs.now)))) }
    {
        self.push(Node::Pats(xs, role))
    }

    pub fn more_pats(&mut self, xs: &'a [Box<Pat<'s>>], role: Role) -> Result<(), AllocError>
        ensures { OnOk result (job_of self.new ≡ pushed (job_of self.old) (Many MoreCommas (forest_at (role_of role) (map (inside noted_pattern) xs.now)))) }
    {
        self.push(Node::MorePats(xs, role))
    }

    pub fn props(&mut self, xs: &'a [Box<Prop<'s>>]) -> Result<(), AllocError>
        ensures { OnOk result (job_of self.new ≡ pushed (job_of self.old) (Many Commas (members_of_object (map (inside noted_member) xs.now)))) }
    {
        self.push(Node::Props(xs))
    }

    pub fn more_props(&mut self, xs: &'a [Box<Prop<'s>>]) -> Result<(), AllocError>
        ensures { OnOk result (job_of self.new ≡ pushed (job_of self.old) (Many MoreCommas (members_of_object (map (inside noted_member) xs.now)))) }
    {
        self.push(Node::MoreProps(xs))
    }

    pub fn members(&mut self, xs: &'a [Box<Prop<'s>>]) -> Result<(), AllocError>
        ensures { OnOk result (job_of self.new ≡ pushed (job_of self.old) (Many OnLines (members_of_class (map (inside noted_member) xs.now)))) }
    {
        self.push(Node::Members(xs))
    }

    pub fn stmts(&mut self, xs: &'a [Box<Stmt<'s>>]) -> Result<(), AllocError>
        ensures { OnOk result (job_of self.new ≡ pushed (job_of self.old) (Many OnLines (forest (map (inside noted_stmt) xs.now)))) }
    {
        self.push(Node::Stmts(xs))
    }

    pub fn top_stmts(&mut self, xs: &'a [Box<Stmt<'s>>]) -> Result<(), AllocError>
        ensures { OnOk result (job_of self.new ≡ pushed (job_of self.old) (Many Ended (forest (map (inside noted_stmt) xs.now)))) }
    {
        self.push(Node::TopStmts(xs))
    }

    pub fn cases(&mut self, xs: &'a [Box<Control<'s>>]) -> Result<(), AllocError>
        ensures { OnOk result (job_of self.new ≡ pushed (job_of self.old) (Many OnLines (forest (map (inside noted_control) xs.now)))) }
    {
        self.push(Node::Cases(xs))
    }

    pub fn links(&mut self, xs: &'a [Box<Link<'s>>]) -> Result<(), AllocError>
        ensures { OnOk result (job_of self.new ≡ pushed (job_of self.old) (Many Joined (forest (map (inside noted_link) xs.now)))) }
    {
        self.push(Node::Links(xs))
    }

    pub fn directives(&mut self, xs: &'a [Text<'s>]) -> Result<(), AllocError>
        ensures { OnOk result (job_of self.new ≡ pushed (job_of self.old) (Many OnLines (forest (map directive xs.now)))) }
    {
        self.push(Node::Directives(xs))
    }

    pub fn top_directives(&mut self, xs: &'a [Text<'s>]) -> Result<(), AllocError>
        ensures { OnOk result (job_of self.new ≡ pushed (job_of self.old) (Many Ended (forest (map directive xs.now)))) }
    {
        self.push(Node::TopDirectives(xs))
    }

    pub fn items(&mut self, items: &'a Vec<Item<'s>>, i: usize) -> Result<(), AllocError>
        ensures { OnOk result (job_of self.new ≡ pushed (job_of self.old) (Many Ended (forest (map noted_item (drop i items.now.items))))) }
    {
        self.push(Node::Items(items, i))
    }

    pub fn spans(
        &mut self,
        pieces: &'a [Text<'s>],
        exprs: &'a [Box<Expr<'s>>],
    ) -> Result<(), AllocError>
        ensures { OnOk result (job_of self.new ≡ pushed (job_of self.old) (Spans pieces.now (map (inside noted_expr) exprs.now))) }
    {
        self.push(Node::Spans(pieces, exprs))
    }

    /// The body of a function: `{ a; }`, its directives and its statements.
    pub fn body(
        &mut self,
        directives: &'a [Text<'s>],
        stmts: &'a [Box<Stmt<'s>>],
    ) -> Result<(), AllocError>
        ensures { OnOk result (job_of self.new ≡ filled (job_of self.old) (forest (map directive directives.now)) (forest (map (inside noted_stmt) stmts.now))) }
    {
        self.sign("}")?;
        self.step(Step::Outdent)?;
        self.stmts(stmts)?;
        self.directives(directives)?;
        self.step(Step::Indent)?;
        self.sign("{")
    }

    /// An expression that may be absent, with this before it.
    #[tactic(auto, using(crate::proofs::Planning::optional))]
    pub fn led_expr(
        &mut self,
        sign: &'static str,
        expr: &'a Option<Box<Expr<'s>>>,
    ) -> Result<(), AllocError>
        requires { IsTrue (is_ascii sign.now) }
        ensures { OnOk result (job_of self.new ≡ led (job_of self.old) sign.now (optional_of noted_expr expr.now)) }
    {
        match expr {
            Some(expr) => {
                self.expr(expr)?;
                self.raw(sign)
            }
            None => Ok(()),
        }
    }

    #[tactic(auto, using(crate::proofs::Planning::optional))]
    pub fn led_stmt(
        &mut self,
        sign: &'static str,
        stmt: &'a Option<Box<Stmt<'s>>>,
    ) -> Result<(), AllocError>
        requires { IsTrue (is_ascii sign.now) }
        ensures { OnOk result (job_of self.new ≡ led (job_of self.old) sign.now (optional_of noted_stmt stmt.now)) }
    {
        match stmt {
            Some(stmt) => {
                self.stmt(stmt)?;
                self.raw(sign)
            }
            None => Ok(()),
        }
    }

    #[tactic(auto, using(crate::proofs::Planning::optional))]
    pub fn led_control(
        &mut self,
        sign: &'static str,
        control: &'a Option<Box<Control<'s>>>,
    ) -> Result<(), AllocError>
        requires { IsTrue (is_ascii sign.now) }
        ensures { OnOk result (job_of self.new ≡ led (job_of self.old) sign.now (optional_of noted_control control.now)) }
    {
        match control {
            Some(control) => {
                self.control(control)?;
                self.raw(sign)
            }
            None => Ok(()),
        }
    }

    #[tactic(auto, using(crate::proofs::Planning::optional))]
    pub fn led_name(
        &mut self,
        sign: &'static str,
        name: &'a Option<Ident<'s>>,
    ) -> Result<(), AllocError>
        requires { IsTrue (is_ascii sign.now) }
        ensures { OnOk result (job_of self.new ≡ led_name (job_of self.old) sign.now name.now) }
    {
        match name {
            Some(name) => {
                self.word(&name.text)?;
                self.raw(sign)
            }
            None => Ok(()),
        }
    }

    #[tactic(auto, using(crate::proofs::Planning::optional))]
    pub fn led_boxed(
        &mut self,
        sign: &'static str,
        name: &'a Option<Box<Ident<'s>>>,
    ) -> Result<(), AllocError>
        requires { IsTrue (is_ascii sign.now) }
        ensures { OnOk result (job_of self.new ≡ led_boxed (job_of self.old) sign.now name.now) }
    {
        match name {
            Some(name) => {
                self.word(&name.text)?;
                self.raw(sign)
            }
            None => Ok(()),
        }
    }

    #[tactic(auto, using(crate::proofs::Planning::optional))]
    pub fn may_boxed(&mut self, name: &'a Option<Box<Ident<'s>>>) -> Result<(), AllocError>
        ensures { OnOk result (job_of self.new ≡ may_boxed (job_of self.old) name.now) }
    {
        match name {
            Some(name) => self.word(&name.text),
            None => Ok(()),
        }
    }

    #[tactic(auto, using(crate::proofs::Planning::optional))]
    pub fn may_name(&mut self, name: &'a Option<Ident<'s>>) -> Result<(), AllocError>
        ensures { OnOk result (job_of self.new ≡ may_name (job_of self.old) name.now) }
    {
        match name {
            Some(name) => self.word(&name.text),
            None => Ok(()),
        }
    }

    #[tactic(auto, using(crate::proofs::Planning::optional))]
    pub fn may_pat(&mut self, pat: &'a Option<Box<Pat<'s>>>, role: Role) -> Result<(), AllocError>
        ensures { OnOk result (job_of self.new ≡ may (job_of self.old) (optional_at_of (role_of role) noted_pattern pat.now)) }
    {
        match pat {
            Some(pat) => self.pat(pat, role),
            None => Ok(()),
        }
    }

    /// The pieces of a template, and the expressions between them.
    #[tactic(auto, using(crate::proofs::Planning::optional))]
    pub fn template(
        &mut self,
        pieces: &'a [Text<'s>],
        exprs: &'a [Box<Expr<'s>>],
    ) -> Result<(), AllocError>
        ensures { OnOk result (job_of self.new ≡ templ (job_of self.old) pieces.now (map (inside noted_expr) exprs.now)) }
    {
        match pieces.split_first() {
            Some((first, rest)) => {
                self.spans(rest, exprs)?;
                self.word(first)
            }
            None => Ok(()),
        }
    }

    /// The key of a member.
    #[tactic(auto, using(crate::proofs::Planning::optional))]
    pub fn key(&mut self, key: &'a Key<'s>) -> Result<(), AllocError>
        ensures { OnOk result (job_of self.new ≡ keyed (job_of self.old) (noted_key key.now)) }
    {
        match key {
            Key::Name(name) => self.word(name),
            Key::Literal(_, text) => self.word(text),
            Key::Computed(_, value) => self.computed(value),
        }
    }

    fn computed(&mut self, value: &'a Box<Expr<'s>>) -> Result<(), AllocError>
        ensures { OnOk result (job_of self.new ≡ pushed (pushed (pushed (job_of self.old) (Ink (codes "]"))) (Put (noted_expr value.now.value))) (Ink (codes "["))) }
    {
        self.sign("]")?;
        self.expr(value)?;
        self.sign("[")
    }

    pub fn specifiers(
        &mut self,
        xs: &'a Vec<Specifier<'s>>,
        side: Side,
        i: usize,
    ) -> Result<(), AllocError>
        ensures { OnOk result (job_of self.new ≡ pushed (job_of self.old) (Many Commas (forest (map (view_specifier (side_of side)) (drop i xs.now.items))))) }
    {
        self.push(Node::Specifiers(xs, side, i))
    }

    pub fn more_specifiers(
        &mut self,
        xs: &'a Vec<Specifier<'s>>,
        side: Side,
        i: usize,
    ) -> Result<(), AllocError>
        ensures { OnOk result (job_of self.new ≡ pushed (job_of self.old) (Many MoreCommas (forest (map (view_specifier (side_of side)) (drop i xs.now.items))))) }
    {
        self.push(Node::MoreSpecifiers(xs, side, i))
    }
}
