//! Statements that hold others.

ghost use Rattle.std.specs.Prelude.{◌≡◌, OnOk, map};
ghost use Rattle.jsx_tree.specs.View.{inside, optional_of, view_control};
ghost use Rattle.jsx_tree.specs.Told.{told_control, told_optional};
ghost use Rattle.jsx_visit.specs.Visit.{visited};
ghost use Rattle.jsx_visit.specs.Parts.{with_part, with_test, with_second, kept, kept_each};

use crate::visitor::Visitor;
use crate::walk::Walker;
use jsx_tree::Control;
use std::alloc::AllocError;

impl Walker {
    #[cycle(walk)]
    pub(crate) fn control<V: Visitor>(
        self,
        visitor: &mut V,
        control: &mut Control<'_>,
    ) -> Result<(), AllocError>
        ensures seen { OnOk result (view_control control.new ≡ visited V.made (view_control control.old)) }
        ensures places { OnOk result (kept V.keeps (told_control control.new) ≡ kept V.keeps (told_control control.old)) }
    {
        let below = self.below()?;
        below.first_of_control(visitor, control)?;
        below.second_of_control(visitor, control)?;
        below.third_of_control(visitor, control)?;
        below.fourth_of_control(visitor, control)
    }

    #[cycle(walk)]
    #[tactic(auto, using(crate::proofs::Visits::visits))]
    fn first_of_control<V: Visitor>(
        self,
        visitor: &mut V,
        control: &mut Control<'_>,
    ) -> Result<(), AllocError>
        ensures seen { OnOk result (view_control control.new ≡ with_test V.made (view_control control.old)) }
        ensures places { OnOk result (kept V.keeps (told_control control.new) ≡ kept V.keeps (told_control control.old)) }
    {
        match control {
            Control::If(_, test, _, _) => self.expr(visitor, test),
            Control::Do(_, body, _) => self.stmt(visitor, body),
            Control::While(_, test, _) => self.expr(visitor, test),
            Control::For(_, init, _, _, _) => self.optional_pattern(visitor, init),
            Control::ForIn(_, head, _, _) => self.pattern(visitor, head),
            Control::ForOf(_, head, _, _) => self.pattern(visitor, head),
            Control::Label(..) => Ok(()),
            Control::Switch(_, value, _) => self.expr(visitor, value),
            Control::Case(_, test, _) => self.optional(visitor, test),
            Control::Try(_, body, _, _) => self.stmt(visitor, body),
            Control::Catch(_, pattern, _) => self.optional_pattern(visitor, pattern),
        }
    }

    #[cycle(walk)]
    #[tactic(auto, using(crate::proofs::Visits::visits))]
    fn second_of_control<V: Visitor>(
        self,
        visitor: &mut V,
        control: &mut Control<'_>,
    ) -> Result<(), AllocError>
        ensures seen { OnOk result (view_control control.new ≡ with_second V.made (view_control control.old)) }
        ensures places { OnOk result (kept V.keeps (told_control control.new) ≡ kept V.keeps (told_control control.old)) }
    {
        match control {
            Control::If(_, _, body, _) => self.stmt(visitor, body),
            Control::Do(_, _, test) => self.expr(visitor, test),
            Control::While(_, _, body) => self.stmt(visitor, body),
            Control::For(_, _, test, _, _) => self.optional(visitor, test),
            Control::ForIn(_, _, value, _) => self.expr(visitor, value),
            Control::ForOf(_, _, value, _) => self.expr(visitor, value),
            Control::Label(_, _, body) => self.stmt(visitor, body),
            Control::Switch(_, _, clauses) => self.controls(visitor, clauses),
            Control::Case(_, _, body) => self.stmts(visitor, body),
            Control::Try(_, _, handler, _) => self.optional_control(visitor, handler),
            Control::Catch(_, _, body) => self.stmt(visitor, body),
        }
    }

    #[cycle(walk)]
    #[tactic(auto, using(crate::proofs::Visits::visits))]
    fn third_of_control<V: Visitor>(
        self,
        visitor: &mut V,
        control: &mut Control<'_>,
    ) -> Result<(), AllocError>
        ensures seen { OnOk result (view_control control.new ≡ with_part 2 V.made (view_control control.old)) }
        ensures places { OnOk result (kept V.keeps (told_control control.new) ≡ kept V.keeps (told_control control.old)) }
    {
        match control {
            Control::If(_, _, _, other) => self.optional_stmt(visitor, other),
            Control::For(_, _, _, update, _) => self.optional(visitor, update),
            Control::ForIn(_, _, _, body) => self.stmt(visitor, body),
            Control::ForOf(_, _, _, body) => self.stmt(visitor, body),
            Control::Try(_, _, _, finalizer) => self.optional_stmt(visitor, finalizer),
            _ => Ok(()),
        }
    }

    #[cycle(walk)]
    #[tactic(auto, using(crate::proofs::Visits::visits))]
    fn fourth_of_control<V: Visitor>(
        self,
        visitor: &mut V,
        control: &mut Control<'_>,
    ) -> Result<(), AllocError>
        ensures seen { OnOk result (view_control control.new ≡ with_part 3 V.made (view_control control.old)) }
        ensures places { OnOk result (kept V.keeps (told_control control.new) ≡ kept V.keeps (told_control control.old)) }
    {
        match control {
            Control::For(_, _, _, _, body) => self.stmt(visitor, body),
            _ => Ok(()),
        }
    }

    #[cycle(walk)]
    fn controls<V: Visitor>(
        self,
        visitor: &mut V,
        controls: &mut Vec<Box<Control<'_>>>,
    ) -> Result<(), AllocError>
        ensures seen { OnOk result (map (inside view_control) controls.new.items ≡ map (visited V.made) (map (inside view_control) controls.old.items)) }
        ensures places { OnOk result (kept_each V.keeps (inside told_control) controls.new.items ≡ kept_each V.keeps (inside told_control) controls.old.items) }
    {
        for control in controls.iter_mut() {
            self.control(visitor, control)?;
        }
        Ok(())
    }

    #[cycle(walk)]
    #[tactic(auto, using(crate::proofs::Visits::visits))]
    fn optional_control<V: Visitor>(
        self,
        visitor: &mut V,
        control: &mut Option<Box<Control<'_>>>,
    ) -> Result<(), AllocError>
        ensures seen { OnOk result (optional_of view_control control.new ≡ visited V.made (optional_of view_control control.old)) }
        ensures places { OnOk result (kept V.keeps (told_optional told_control control.new) ≡ kept V.keeps (told_optional told_control control.old)) }
    {
        match control {
            Some(control) => self.control(visitor, control),
            None => Ok(()),
        }
    }
}
