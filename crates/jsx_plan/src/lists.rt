//! The trees of one place: the first of them, and then what is left.

ghost use Rattle.std.specs.Prelude.{◌≡◌, OnOk, codes, drop, map};
ghost use Rattle.jsx_pen.specs.Pen.{rows};
ghost use Rattle.jsx_plan.specs.Plan.{Commas, Ended, Ink, Joined, Lead, MoreCommas, OnLines, arranged, behind, job_of, outcome, pen_of, pushed, renamed, role_of, side_of};
ghost use Rattle.jsx_tree.specs.Normal.{is_empty, laid_tree};
ghost use Rattle.jsx_tree.specs.ViewProgram.{view_specifier};
ghost use Rattle.jsx_tree.specs.View.{directive, forest, forest_at, inside, members_of_class, members_of_object, text_of};
ghost use Rattle.jsx_plan.specs.Noted.{noted_control, noted_expr, noted_link, noted_member, noted_pattern, noted_stmt};

use crate::node::{Owner, Role, Side};
use crate::printer::Printer;
use jsx_pen::Step;
use jsx_tree::{Control, Expr, Link, Pat, Prop, Specifier, Stmt, Text};
use std::alloc::AllocError;

impl<'a, 's> Printer<'a, 's> {
    #[tactic(auto, using(crate::proofs::Folding::exprs))]
    pub fn open_exprs(&mut self, xs: &'a [Box<Expr<'s>>]) -> Result<(), AllocError>
        ensures { OnOk result (outcome (job_of self.new) ≡ behind (job_of self.old) (arranged Commas (pen_of (job_of self.old)) (rows (forest (map (inside noted_expr) xs.now))))) }
    {
        match xs.split_first() {
            Some((first, rest)) => {
                self.more_exprs(rest)?;
                self.expr(first)
            }
            None => Ok(()),
        }
    }

    #[tactic(auto, using(crate::proofs::Folding::more_exprs))]
    pub fn open_more_exprs(&mut self, xs: &'a [Box<Expr<'s>>]) -> Result<(), AllocError>
        ensures { OnOk result (outcome (job_of self.new) ≡ behind (job_of self.old) (arranged MoreCommas (pen_of (job_of self.old)) (rows (forest (map (inside noted_expr) xs.now))))) }
    {
        match xs.split_first() {
            Some((first, rest)) => {
                self.more_exprs(rest)?;
                self.expr(first)?;
                self.sign(", ")
            }
            None => Ok(()),
        }
    }

    #[tactic(auto, using(crate::proofs::Folding::pats))]
    pub fn open_pats(&mut self, xs: &'a [Box<Pat<'s>>], role: Role) -> Result<(), AllocError>
        ensures { OnOk result (outcome (job_of self.new) ≡ behind (job_of self.old) (arranged Commas (pen_of (job_of self.old)) (rows (forest_at (role_of role) (map (inside noted_pattern) xs.now))))) }
    {
        match xs.split_first() {
            Some((first, rest)) => {
                self.more_pats(rest, role)?;
                self.pat(first, role)
            }
            None => Ok(()),
        }
    }

    #[tactic(auto, using(crate::proofs::Folding::more_pats))]
    pub fn open_more_pats(&mut self, xs: &'a [Box<Pat<'s>>], role: Role) -> Result<(), AllocError>
        ensures { OnOk result (outcome (job_of self.new) ≡ behind (job_of self.old) (arranged MoreCommas (pen_of (job_of self.old)) (rows (forest_at (role_of role) (map (inside noted_pattern) xs.now))))) }
    {
        match xs.split_first() {
            Some((first, rest)) => {
                self.more_pats(rest, role)?;
                self.pat(first, role)?;
                self.sign(", ")
            }
            None => Ok(()),
        }
    }

    #[tactic(auto, using(crate::proofs::Folding::props))]
    pub fn open_props(&mut self, xs: &'a [Box<Prop<'s>>]) -> Result<(), AllocError>
        ensures { OnOk result (outcome (job_of self.new) ≡ behind (job_of self.old) (arranged Commas (pen_of (job_of self.old)) (rows (members_of_object (map (inside noted_member) xs.now))))) }
    {
        match xs.split_first() {
            Some((first, rest)) => {
                self.more_props(rest)?;
                self.prop(first, Owner::Object)
            }
            None => Ok(()),
        }
    }

    #[tactic(auto, using(crate::proofs::Folding::more_props))]
    pub fn open_more_props(&mut self, xs: &'a [Box<Prop<'s>>]) -> Result<(), AllocError>
        ensures { OnOk result (outcome (job_of self.new) ≡ behind (job_of self.old) (arranged MoreCommas (pen_of (job_of self.old)) (rows (members_of_object (map (inside noted_member) xs.now))))) }
    {
        match xs.split_first() {
            Some((first, rest)) => {
                self.more_props(rest)?;
                self.prop(first, Owner::Object)?;
                self.sign(", ")
            }
            None => Ok(()),
        }
    }

    #[tactic(auto, using(crate::proofs::Folding::members))]
    pub fn open_members(&mut self, xs: &'a [Box<Prop<'s>>]) -> Result<(), AllocError>
        ensures { OnOk result (outcome (job_of self.new) ≡ behind (job_of self.old) (arranged OnLines (pen_of (job_of self.old)) (rows (members_of_class (map (inside noted_member) xs.now))))) }
    {
        match xs.split_first() {
            Some((first, rest)) => {
                self.members(rest)?;
                self.prop(first, Owner::Class)?;
                self.step(Step::Line)
            }
            None => Ok(()),
        }
    }

    #[tactic(auto, using(crate::proofs::Folding::stmts))]
    pub fn open_stmts(&mut self, xs: &'a [Box<Stmt<'s>>]) -> Result<(), AllocError>
        ensures { OnOk result (outcome (job_of self.new) ≡ behind (job_of self.old) (arranged OnLines (pen_of (job_of self.old)) (rows (forest (map (inside noted_stmt) xs.now))))) }
    {
        match xs.split_first() {
            Some((first, rest)) => {
                if is_empty_stmt(first) {
                    self.stmts(rest)
                } else {
                    self.stmts(rest)?;
                    self.stmt(first)?;
                    self.step(Step::Line)
                }
            }
            None => Ok(()),
        }
    }

    #[tactic(auto, using(crate::proofs::Folding::top_stmts))]
    pub fn open_top_stmts(&mut self, xs: &'a [Box<Stmt<'s>>]) -> Result<(), AllocError>
        ensures { OnOk result (outcome (job_of self.new) ≡ behind (job_of self.old) (arranged Ended (pen_of (job_of self.old)) (rows (forest (map (inside noted_stmt) xs.now))))) }
    {
        match xs.split_first() {
            Some((first, rest)) => {
                if is_empty_stmt(first) {
                    self.top_stmts(rest)
                } else {
                    self.top_stmts(rest)?;
                    self.step(Step::Line)?;
                    self.stmt(first)
                }
            }
            None => Ok(()),
        }
    }

    #[tactic(auto, using(crate::proofs::Folding::cases))]
    pub fn open_cases(&mut self, xs: &'a [Box<Control<'s>>]) -> Result<(), AllocError>
        ensures { OnOk result (outcome (job_of self.new) ≡ behind (job_of self.old) (arranged OnLines (pen_of (job_of self.old)) (rows (forest (map (inside noted_control) xs.now))))) }
    {
        match xs.split_first() {
            Some((first, rest)) => {
                self.cases(rest)?;
                self.control(first)?;
                self.step(Step::Line)
            }
            None => Ok(()),
        }
    }

    #[tactic(auto, using(crate::proofs::Folding::links))]
    pub fn open_links(&mut self, xs: &'a [Box<Link<'s>>]) -> Result<(), AllocError>
        ensures { OnOk result (outcome (job_of self.new) ≡ behind (job_of self.old) (arranged Joined (pen_of (job_of self.old)) (rows (forest (map (inside noted_link) xs.now))))) }
    {
        match xs.split_first() {
            Some((first, rest)) => {
                self.links(rest)?;
                self.link(first)
            }
            None => Ok(()),
        }
    }

    #[tactic(auto, using(crate::proofs::Folding::directives))]
    pub fn open_directives(&mut self, xs: &'a [Text<'s>]) -> Result<(), AllocError>
        ensures { OnOk result (outcome (job_of self.new) ≡ behind (job_of self.old) (arranged OnLines (pen_of (job_of self.old)) (rows (forest (map directive xs.now))))) }
    {
        match xs.split_first() {
            Some((first, rest)) => {
                self.directives(rest)?;
                self.sign(";")?;
                self.word(first)?;
                self.step(Step::Line)
            }
            None => Ok(()),
        }
    }

    #[tactic(auto, using(crate::proofs::Folding::top_directives))]
    pub fn open_top_directives(&mut self, xs: &'a [Text<'s>]) -> Result<(), AllocError>
        ensures { OnOk result (outcome (job_of self.new) ≡ behind (job_of self.old) (arranged Ended (pen_of (job_of self.old)) (rows (forest (map directive xs.now))))) }
    {
        match xs.split_first() {
            Some((first, rest)) => {
                self.top_directives(rest)?;
                self.step(Step::Line)?;
                self.sign(";")?;
                self.word(first)
            }
            None => Ok(()),
        }
    }

    #[tactic(auto, using(crate::proofs::Folding::specifiers))]
    pub fn open_specifiers(
        &mut self,
        xs: &'a Vec<Specifier<'s>>,
        side: Side,
        i: usize,
    ) -> Result<(), AllocError>
        ensures { OnOk result (outcome (job_of self.new) ≡ behind (job_of self.old) (arranged Commas (pen_of (job_of self.old)) (rows (forest (map (view_specifier (side_of side)) (drop i xs.now.items)))))) }
    {
        match xs.get(i) {
            Some(specifier) => {
                self.more_specifiers(xs, side, i + 1)?;
                self.specifier(specifier)
            }
            None => Ok(()),
        }
    }

    #[tactic(auto, using(crate::proofs::Folding::more_specifiers))]
    pub fn open_more_specifiers(
        &mut self,
        xs: &'a Vec<Specifier<'s>>,
        side: Side,
        i: usize,
    ) -> Result<(), AllocError>
        ensures { OnOk result (outcome (job_of self.new) ≡ behind (job_of self.old) (arranged MoreCommas (pen_of (job_of self.old)) (rows (forest (map (view_specifier (side_of side)) (drop i xs.now.items)))))) }
    {
        match xs.get(i) {
            Some(specifier) => {
                self.more_specifiers(xs, side, i + 1)?;
                self.specifier(specifier)?;
                self.sign(", ")
            }
            None => Ok(()),
        }
    }

    /// `a`, or `a as b`
    #[tactic(auto, using(crate::proofs::Planning::clauses))]
    pub fn specifier(&mut self, specifier: &'a Specifier<'s>) -> Result<(), AllocError>
        ensures { OnOk result (job_of self.new ≡ renamed (job_of self.old) specifier.now) }
    {
        match specifier {
            Specifier::Same(_, name) => self.word(name),
            Specifier::As(_, outer, inner) => self.renamed(outer, inner),
        }
    }

    fn renamed(&mut self, outer: &'a Text<'s>, inner: &'a Text<'s>) -> Result<(), AllocError>
        ensures { OnOk result (job_of self.new ≡ pushed (pushed (pushed (job_of self.old) (Ink (text_of inner.now))) (Lead (codes " as "))) (Ink (text_of outer.now))) }
    {
        self.word(inner)?;
        self.raw(" as ")?;
        self.word(outer)
    }
}

/// Whether nothing is printed of a statement in a list.
#[tactic(auto, using(crate::proofs::Noted::empties))]
pub fn is_empty_stmt(stmt: &Box<Stmt<'_>>) -> bool
    ensures { result ≡ is_empty (laid_tree (noted_stmt stmt.now.value)) }
{
    match &**stmt {
        Stmt::Empty(_) => true,
        Stmt::Block(_, _) | Stmt::Var(_, _, _) | Stmt::Expr(_, _) | Stmt::Control(_) => false,
        Stmt::Continue(_, _) | Stmt::Break(_, _) | Stmt::Return(_, _) | Stmt::Throw(_, _) => false,
        Stmt::Debugger(_) | Stmt::Function(_, _, _, _, _) | Stmt::Class(_, _, _, _) => false,
    }
}
