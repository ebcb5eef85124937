//! The parts of statements that hold others at their places.

ghost use Rattle.std.specs.Prelude.{◌≡◌, OnOk, map, false};
ghost use Rattle.jsx_tree.specs.Kinds.{Assigns, Binds};
ghost use Rattle.jsx_tree.specs.View.{inside, optional_of, optional_at_of, view_control, view_pattern};
ghost use Rattle.jsx_scope.specs.Walk.{walk, inner, with_part, with_test, with_second, finished};
ghost use Rattle.jsx_scope.specs.declared.place.Place.TheVariants as place;

use crate::pair::hold_async;
use crate::place::Place;
use crate::walk::Walker;
use jsx_tree::{Control, Pat};
use std::alloc::AllocError;

impl Walker {
    #[cycle(walk)]
    pub(crate) fn control(self, bare: bool, control: &mut Control<'_>) -> Result<(), AllocError>
        ensures { OnOk result (view_control control.new ≡ inner bare (view_control control.old)) }
    {
        let below = self.below()?;
        below.first_of_control(bare, control)?;
        below.second_of_control(bare, control)?;
        below.third_of_control(bare, control)?;
        below.fourth_of_control(bare, control)?;
        below.hold(control)
    }

    #[cycle(walk)]
    #[tactic(auto, using(crate::proofs::Walks::views))]
    fn first_of_control(self, bare: bool, control: &mut Control<'_>) -> Result<(), AllocError>
        ensures { OnOk result (view_control control.new ≡ with_test bare (view_control control.old)) }
    {
        match control {
            Control::If(_, test, _, _) => self.expr(Place::Level(0), false, test),
            Control::Do(_, body, _) => self.stmt(bare, body),
            Control::While(_, test, _) => self.expr(Place::Level(0), false, test),
            Control::For(_, init, _, _, _) => self.optional_pattern(true, init),
            Control::ForIn(_, head, _, _) => self.pattern(false, head),
            Control::ForOf(_, head, _, _) => self.pattern(false, head),
            Control::Label(..) => Ok(()),
            Control::Switch(_, value, _) => self.expr(Place::Level(0), false, value),
            Control::Case(_, test, _) => self.optional(Place::Level(0), bare, test),
            Control::Try(_, body, _, _) => self.stmt(bare, body),
            Control::Catch(_, pattern, _) => self.optional_pattern(bare, pattern),
        }
    }

    #[cycle(walk)]
    #[tactic(auto, using(crate::proofs::Walks::views))]
    fn second_of_control(self, bare: bool, control: &mut Control<'_>) -> Result<(), AllocError>
        ensures { OnOk result (view_control control.new ≡ with_second bare (view_control control.old)) }
    {
        match control {
            Control::If(_, _, body, _) => self.stmt(bare, body),
            Control::Do(_, _, test) => self.expr(Place::Level(0), false, test),
            Control::While(_, _, body) => self.stmt(bare, body),
            Control::For(_, _, test, _, _) => self.optional(Place::Level(0), false, test),
            Control::ForIn(_, _, value, _) => self.expr(Place::Level(0), false, value),
            Control::ForOf(_, _, value, _) => self.expr(Place::Level(1), false, value),
            Control::Label(_, _, body) => self.stmt(bare, body),
            Control::Switch(_, _, clauses) => self.controls(clauses),
            Control::Case(_, _, body) => self.stmts(bare, body),
            Control::Try(_, _, handler, _) => self.optional_control(bare, handler),
            Control::Catch(_, _, body) => self.stmt(bare, body),
        }
    }

    #[cycle(walk)]
    #[tactic(auto, using(crate::proofs::Walks::views))]
    fn third_of_control(self, bare: bool, control: &mut Control<'_>) -> Result<(), AllocError>
        ensures { OnOk result (view_control control.new ≡ with_part 2 bare (view_control control.old)) }
    {
        match control {
            Control::If(_, _, _, other) => self.optional_stmt(bare, other),
            Control::For(_, _, _, update, _) => self.optional(Place::Level(0), false, update),
            Control::ForIn(_, _, _, body) => self.stmt(bare, body),
            Control::ForOf(_, _, _, body) => self.stmt(bare, body),
            Control::Try(_, _, _, finalizer) => self.optional_stmt(bare, finalizer),
            _ => Ok(()),
        }
    }

    #[cycle(walk)]
    #[tactic(auto, using(crate::proofs::Walks::views))]
    fn fourth_of_control(self, bare: bool, control: &mut Control<'_>) -> Result<(), AllocError>
        ensures { OnOk result (view_control control.new ≡ with_part 3 bare (view_control control.old)) }
    {
        match control {
            Control::For(_, _, _, _, body) => self.stmt(bare, body),
            _ => Ok(()),
        }
    }

    #[tactic(auto, using(crate::proofs::Walks::views))]
    fn hold(self, control: &mut Control<'_>) -> Result<(), AllocError>
        ensures { OnOk result (view_control control.new ≡ finished (view_control control.old)) }
    {
        match control {
            Control::ForOf(_, head, _, _) => hold_async(self.alloc, head),
            _ => Ok(()),
        }
    }

    #[cycle(walk)]
    fn controls(self, controls: &mut Vec<Box<Control<'_>>>) -> Result<(), AllocError>
        ensures { OnOk result (map (inside view_control) controls.new.items ≡ map (walk (place.Level 0) false) (map (inside view_control) controls.old.items)) }
    {
        for control in controls.iter_mut() {
            self.control(false, control)?;
        }
        Ok(())
    }

    #[cycle(walk)]
    #[tactic(auto, using(crate::proofs::Walks::views))]
    fn optional_control(
        self,
        bare: bool,
        control: &mut Option<Box<Control<'_>>>,
    ) -> Result<(), AllocError>
        ensures { OnOk result (optional_of view_control control.new ≡ walk (place.Level 0) bare (optional_of view_control control.old)) }
    {
        match control {
            Some(control) => self.control(bare, control),
            None => Ok(()),
        }
    }

    #[cycle(walk)]
    #[tactic(auto, using(crate::proofs::Walks::views))]
    fn optional_pattern(
        self,
        bare: bool,
        pattern: &mut Option<Box<Pat<'_>>>,
    ) -> Result<(), AllocError>
        ensures binds { OnOk result (optional_at_of Binds view_pattern pattern.new ≡ walk (place.Level 0) bare (optional_at_of Binds view_pattern pattern.old)) }
        ensures assigns { OnOk result (optional_at_of Assigns view_pattern pattern.new ≡ walk (place.Level 0) bare (optional_at_of Assigns view_pattern pattern.old)) }
    {
        match pattern {
            Some(pattern) => self.pattern(bare, pattern),
            None => Ok(()),
        }
    }
}
