//! The parts of patterns at their places.

ghost use Rattle.std.specs.Prelude.{◌≡◌, OnOk, map, false};
ghost use Rattle.jsx_tree.specs.Kinds.{Binds, Assigns};
ghost use Rattle.jsx_tree.specs.View.{view_pattern, view_key};
ghost use Rattle.jsx_scope.specs.Walk.{walk, but_half, with_half, seen_at};
ghost use Rattle.jsx_scope.specs.declared.place.Place.TheVariants as place;

use crate::place::Place;
use crate::walk::Walker;
use jsx_tree::{Key, Pat};
use std::alloc::AllocError;

impl Walker {
    #[cycle(walk)]
    pub(crate) fn pattern(self, bare: bool, pattern: &mut Box<Pat<'_>>) -> Result<(), AllocError>
        ensures binds { OnOk result (view_pattern pattern.new.value Binds ≡ walk (place.Level 0) bare (view_pattern pattern.old.value Binds)) }
        ensures assigns { OnOk result (view_pattern pattern.new.value Assigns ≡ walk (place.Level 0) bare (view_pattern pattern.old.value Assigns)) }
    {
        let below = self.below()?;
        below.parts_of_pattern(bare, pattern)
    }

    #[cycle(walk)]
    fn parts_of_pattern(self, bare: bool, pattern: &mut Pat<'_>) -> Result<(), AllocError>
        ensures binds { OnOk result (view_pattern pattern.new Binds ≡ walk (place.Level 0) bare (view_pattern pattern.old Binds)) }
        ensures assigns { OnOk result (view_pattern pattern.new Assigns ≡ walk (place.Level 0) bare (view_pattern pattern.old Assigns)) }
    {
        self.first_of_pattern(bare, pattern)?;
        self.second_of_pattern(bare, pattern)
    }

    #[cycle(walk)]
    #[tactic(auto, using(crate::proofs::Walks::views))]
    fn first_of_pattern(self, bare: bool, pattern: &mut Pat<'_>) -> Result<(), AllocError>
        ensures binds { OnOk result (view_pattern pattern.new Binds ≡ but_half bare (view_pattern pattern.old Binds)) }
        ensures assigns { OnOk result (view_pattern pattern.new Assigns ≡ but_half bare (view_pattern pattern.old Assigns)) }
    {
        match pattern {
            Pat::Array(_, items) => self.patterns(false, items),
            Pat::Object(_, items) => self.patterns(false, items),
            Pat::Target(expr) => self.expr(Place::Level(0), bare, expr),
            Pat::Paren(_, target) => self.pattern(false, target),
            Pat::Binding(_, target, _) => self.pattern(bare, target),
            Pat::WithInit(_, target, _) => self.pattern(bare, target),
            Pat::Rest(_, target) => self.pattern(bare, target),
            Pat::Pair(_, key, _) => self.key(key),
            Pat::Declaration(_, _, declarators) => self.patterns(bare, declarators),
            Pat::Head(_, _, target) => self.pattern(bare, target),
            Pat::Ident(..) | Pat::Hole | Pat::Shorthand(..) | Pat::RestProperty(..) => Ok(()),
        }
    }

    #[cycle(walk)]
    #[tactic(auto, using(crate::proofs::Walks::views))]
    fn second_of_pattern(self, bare: bool, pattern: &mut Pat<'_>) -> Result<(), AllocError>
        ensures binds { OnOk result (view_pattern pattern.new Binds ≡ with_half bare (view_pattern pattern.old Binds)) }
        ensures assigns { OnOk result (view_pattern pattern.new Assigns ≡ with_half bare (view_pattern pattern.old Assigns)) }
    {
        match pattern {
            Pat::Binding(_, _, value) => self.optional(Place::Level(1), bare, value),
            Pat::WithInit(_, _, value) => self.expr(Place::Level(1), bare, value),
            Pat::Pair(_, _, target) => self.pattern(bare, target),
            Pat::Shorthand(_, _, value) => self.optional(Place::Level(1), bare, value),
            _ => Ok(()),
        }
    }

    #[cycle(walk)]
    pub(crate) fn patterns(
        self,
        bare: bool,
        patterns: &mut Vec<Box<Pat<'_>>>,
    ) -> Result<(), AllocError>
        ensures binds { OnOk result (map (seen_at Binds) patterns.new.items ≡ map (walk (place.Level 0) bare) (map (seen_at Binds) patterns.old.items)) }
        ensures assigns { OnOk result (map (seen_at Assigns) patterns.new.items ≡ map (walk (place.Level 0) bare) (map (seen_at Assigns) patterns.old.items)) }
    {
        for pattern in patterns.iter_mut() {
            self.pattern(bare, pattern)?;
        }
        Ok(())
    }

    #[cycle(walk)]
    #[tactic(auto, using(crate::proofs::Walks::views))]
    pub(crate) fn key(self, key: &mut Key<'_>) -> Result<(), AllocError>
        ensures { OnOk result (view_key key.new ≡ walk (place.Level 0) false (view_key key.old)) }
    {
        match key {
            Key::Computed(_, expr) => self.expr(Place::Level(1), false, expr),
            Key::Name(..) | Key::Literal(..) => Ok(()),
        }
    }
}
