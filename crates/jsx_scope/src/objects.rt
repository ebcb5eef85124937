//! The parts of members of objects and classes at their places.

ghost use Rattle.std.specs.Prelude.{◌≡◌, OnOk, map, false};
ghost use Rattle.jsx_tree.specs.View.{view_member, OfObject, OfClass};
ghost use Rattle.jsx_scope.specs.Walk.{walk, with_part, inner, member_at};
ghost use Rattle.jsx_scope.specs.declared.place.Place.TheVariants as place;

use crate::place::Place;
use crate::walk::Walker;
use jsx_tree::Prop;
use std::alloc::AllocError;

impl Walker {
    #[cycle(walk)]
    pub(crate) fn member(self, member: &mut Prop<'_>) -> Result<(), AllocError>
        ensures of_object { OnOk result (view_member member.new OfObject ≡ inner false (view_member member.old OfObject)) }
        ensures of_class { OnOk result (view_member member.new OfClass ≡ inner false (view_member member.old OfClass)) }
    {
        self.first_of_member(member)?;
        self.second_of_member(member)?;
        self.third_of_member(member)
    }

    #[cycle(walk)]
    #[tactic(auto, using(crate::proofs::Walks::views))]
    fn first_of_member(self, member: &mut Prop<'_>) -> Result<(), AllocError>
        ensures of_object { OnOk result (view_member member.new OfObject ≡ with_part 0 false (view_member member.old OfObject)) }
        ensures of_class { OnOk result (view_member member.new OfClass ≡ with_part 0 false (view_member member.old OfClass)) }
    {
        match member {
            Prop::Pair(_, key, _) => self.key(key),
            Prop::Shorthand(..) => Ok(()),
            Prop::Spread(_, expr) => self.expr(Place::Level(1), false, expr),
            Prop::Method(_, _, key, _, _, _) => self.key(key),
            Prop::Getter(_, _, key, _, _) => self.key(key),
            Prop::Setter(_, _, key, _, _, _) => self.key(key),
            Prop::Field(_, _, key, _) => self.key(key),
        }
    }

    #[cycle(walk)]
    #[tactic(auto, using(crate::proofs::Walks::views))]
    fn second_of_member(self, member: &mut Prop<'_>) -> Result<(), AllocError>
        ensures of_object { OnOk result (view_member member.new OfObject ≡ with_part 1 false (view_member member.old OfObject)) }
        ensures of_class { OnOk result (view_member member.new OfClass ≡ with_part 1 false (view_member member.old OfClass)) }
    {
        match member {
            Prop::Pair(_, _, value) => self.expr(Place::Level(1), false, value),
            Prop::Method(_, _, _, parameters, _, _) => self.patterns(false, parameters),
            Prop::Getter(_, _, _, _, body) => self.body(body),
            Prop::Setter(_, _, _, parameter, _, _) => self.pattern(false, parameter),
            Prop::Field(_, _, _, value) => self.optional(Place::Level(1), false, value),
            Prop::Shorthand(..) | Prop::Spread(..) => Ok(()),
        }
    }

    #[cycle(walk)]
    #[tactic(auto, using(crate::proofs::Walks::views))]
    fn third_of_member(self, member: &mut Prop<'_>) -> Result<(), AllocError>
        ensures of_object { OnOk result (view_member member.new OfObject ≡ with_part 2 false (view_member member.old OfObject)) }
        ensures of_class { OnOk result (view_member member.new OfClass ≡ with_part 2 false (view_member member.old OfClass)) }
    {
        match member {
            Prop::Method(_, _, _, _, _, body) => self.body(body),
            Prop::Setter(_, _, _, _, _, body) => self.body(body),
            _ => Ok(()),
        }
    }

    #[cycle(walk)]
    pub(crate) fn members(self, members: &mut Vec<Box<Prop<'_>>>) -> Result<(), AllocError>
        ensures of_object { OnOk result (map (member_at OfObject) members.new.items ≡ map (walk (place.Level 0) false) (map (member_at OfObject) members.old.items)) }
        ensures of_class { OnOk result (map (member_at OfClass) members.new.items ≡ map (walk (place.Level 0) false) (map (member_at OfClass) members.old.items)) }
    {
        for member in members.iter_mut() {
            self.member(member)?;
        }
        Ok(())
    }
}
