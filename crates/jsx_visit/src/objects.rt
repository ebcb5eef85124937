//! Members of objects and classes.

ghost use Rattle.std.specs.Prelude.{◌≡◌, OnOk, map};
ghost use Rattle.jsx_tree.specs.View.{inside, view_member, OfObject, OfClass};
ghost use Rattle.jsx_tree.specs.Told.{told_prop};
ghost use Rattle.jsx_visit.specs.Visit.{visited};
ghost use Rattle.jsx_visit.specs.Parts.{with_part, member_at, kept, kept_each};

use crate::visitor::Visitor;
use crate::walk::Walker;
use jsx_tree::Prop;
use std::alloc::AllocError;

impl Walker {
    #[cycle(walk)]
    pub(crate) fn member<V: Visitor>(
        self,
        visitor: &mut V,
        member: &mut Prop<'_>,
    ) -> Result<(), AllocError>
        ensures of_object { OnOk result (view_member member.new OfObject ≡ visited V.made (view_member member.old OfObject)) }
        ensures of_class { OnOk result (view_member member.new OfClass ≡ visited V.made (view_member member.old OfClass)) }
        ensures places { OnOk result (kept V.keeps (told_prop member.new) ≡ kept V.keeps (told_prop member.old)) }
    {
        self.first_of_member(visitor, member)?;
        self.second_of_member(visitor, member)?;
        self.third_of_member(visitor, member)
    }

    #[cycle(walk)]
    #[tactic(auto, using(crate::proofs::Visits::visits))]
    fn first_of_member<V: Visitor>(
        self,
        visitor: &mut V,
        member: &mut Prop<'_>,
    ) -> Result<(), AllocError>
        ensures of_object { OnOk result (view_member member.new OfObject ≡ with_part 0 V.made (view_member member.old OfObject)) }
        ensures of_class { OnOk result (view_member member.new OfClass ≡ with_part 0 V.made (view_member member.old OfClass)) }
        ensures places { OnOk result (kept V.keeps (told_prop member.new) ≡ kept V.keeps (told_prop member.old)) }
    {
        match member {
            Prop::Pair(_, key, _) => self.key(visitor, key),
            Prop::Shorthand(..) => Ok(()),
            Prop::Spread(_, expr) => self.expr(visitor, expr),
            Prop::Method(_, _, key, _, _, _) => self.key(visitor, key),
            Prop::Getter(_, _, key, _, _) => self.key(visitor, key),
            Prop::Setter(_, _, key, _, _, _) => self.key(visitor, key),
            Prop::Field(_, _, key, _) => self.key(visitor, key),
        }
    }

    #[cycle(walk)]
    #[tactic(auto, using(crate::proofs::Visits::visits))]
    fn second_of_member<V: Visitor>(
        self,
        visitor: &mut V,
        member: &mut Prop<'_>,
    ) -> Result<(), AllocError>
        ensures of_object { OnOk result (view_member member.new OfObject ≡ with_part 1 V.made (view_member member.old OfObject)) }
        ensures of_class { OnOk result (view_member member.new OfClass ≡ with_part 1 V.made (view_member member.old OfClass)) }
        ensures places { OnOk result (kept V.keeps (told_prop member.new) ≡ kept V.keeps (told_prop member.old)) }
    {
        match member {
            Prop::Pair(_, _, value) => self.expr(visitor, value),
            Prop::Method(_, _, _, parameters, _, _) => self.patterns(visitor, parameters),
            Prop::Getter(_, _, _, _, body) => self.stmts(visitor, body),
            Prop::Setter(_, _, _, parameter, _, _) => self.pattern(visitor, parameter),
            Prop::Field(_, _, _, value) => self.optional(visitor, value),
            Prop::Shorthand(..) | Prop::Spread(..) => Ok(()),
        }
    }

    #[cycle(walk)]
    #[tactic(auto, using(crate::proofs::Visits::visits))]
    fn third_of_member<V: Visitor>(
        self,
        visitor: &mut V,
        member: &mut Prop<'_>,
    ) -> Result<(), AllocError>
        ensures of_object { OnOk result (view_member member.new OfObject ≡ with_part 2 V.made (view_member member.old OfObject)) }
        ensures of_class { OnOk result (view_member member.new OfClass ≡ with_part 2 V.made (view_member member.old OfClass)) }
        ensures places { OnOk result (kept V.keeps (told_prop member.new) ≡ kept V.keeps (told_prop member.old)) }
    {
        match member {
            Prop::Method(_, _, _, _, _, body) => self.stmts(visitor, body),
            Prop::Setter(_, _, _, _, _, body) => self.stmts(visitor, body),
            _ => Ok(()),
        }
    }

    #[cycle(walk)]
    pub(crate) fn members<V: Visitor>(
        self,
        visitor: &mut V,
        members: &mut Vec<Box<Prop<'_>>>,
    ) -> Result<(), AllocError>
        ensures of_object { OnOk result (map (member_at OfObject) members.new.items ≡ map (visited V.made) (map (member_at OfObject) members.old.items)) }
        ensures of_class { OnOk result (map (member_at OfClass) members.new.items ≡ map (visited V.made) (map (member_at OfClass) members.old.items)) }
        ensures places { OnOk result (kept_each V.keeps (inside told_prop) members.new.items ≡ kept_each V.keeps (inside told_prop) members.old.items) }
    {
        for member in members.iter_mut() {
            self.member(visitor, member)?;
        }
        Ok(())
    }
}
