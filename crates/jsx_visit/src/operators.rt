//! Operators, calls and members.

ghost use Rattle.std.specs.Prelude.{◌≡◌, OnOk, map};
ghost use Rattle.jsx_tree.specs.View.{inside, view_operation, view_access, view_link};
ghost use Rattle.jsx_tree.specs.Told.{told_operation, told_access, told_link};
ghost use Rattle.jsx_visit.specs.Visit.{visited, within};
ghost use Rattle.jsx_visit.specs.Parts.{with_part, kept, kept_each};

use crate::visitor::Visitor;
use crate::walk::Walker;
use jsx_tree::{Access, Link, Operation};
use std::alloc::AllocError;

impl Walker {
    #[cycle(walk)]
    pub(crate) fn operation<V: Visitor>(
        self,
        visitor: &mut V,
        operation: &mut Operation<'_>,
    ) -> Result<(), AllocError>
        ensures seen { OnOk result (view_operation operation.new ≡ within V.made (view_operation operation.old)) }
        ensures places { OnOk result (kept V.keeps (told_operation operation.new) ≡ kept V.keeps (told_operation operation.old)) }
    {
        self.first_of_operation(visitor, operation)?;
        self.second_of_operation(visitor, operation)?;
        self.third_of_operation(visitor, operation)
    }

    #[cycle(walk)]
    #[tactic(auto, using(crate::proofs::Visits::visits))]
    fn first_of_operation<V: Visitor>(
        self,
        visitor: &mut V,
        operation: &mut Operation<'_>,
    ) -> Result<(), AllocError>
        ensures seen { OnOk result (view_operation operation.new ≡ with_part 0 V.made (view_operation operation.old)) }
        ensures places { OnOk result (kept V.keeps (told_operation operation.new) ≡ kept V.keeps (told_operation operation.old)) }
    {
        match operation {
            Operation::Seq(_, items) => self.exprs(visitor, items),
            Operation::Assign(_, target, _) => self.pattern(visitor, target),
            Operation::OpAssign(_, _, target, _) => self.pattern(visitor, target),
            Operation::Arrow(_, parameters, _) => self.patterns(visitor, parameters),
            Operation::ArrowBlock(_, parameters, _, _) => self.patterns(visitor, parameters),
            Operation::Cond(_, test, _, _) => self.expr(visitor, test),
            Operation::Binary(_, _, left, _) => self.expr(visitor, left),
            Operation::Unary(_, _, operand) => self.expr(visitor, operand),
            Operation::Update(_, _, _, target) => self.pattern(visitor, target),
            Operation::Spread(_, operand) => self.expr(visitor, operand),
            Operation::BareArrow(..) | Operation::BareArrowBlock(..) | Operation::Hole => Ok(()),
        }
    }

    #[cycle(walk)]
    #[tactic(auto, using(crate::proofs::Visits::visits))]
    fn second_of_operation<V: Visitor>(
        self,
        visitor: &mut V,
        operation: &mut Operation<'_>,
    ) -> Result<(), AllocError>
        ensures seen { OnOk result (view_operation operation.new ≡ with_part 1 V.made (view_operation operation.old)) }
        ensures places { OnOk result (kept V.keeps (told_operation operation.new) ≡ kept V.keeps (told_operation operation.old)) }
    {
        match operation {
            Operation::Assign(_, _, value) => self.expr(visitor, value),
            Operation::OpAssign(_, _, _, value) => self.expr(visitor, value),
            Operation::Arrow(_, _, value) => self.expr(visitor, value),
            Operation::ArrowBlock(_, _, _, body) => self.stmts(visitor, body),
            Operation::BareArrow(_, _, value) => self.expr(visitor, value),
            Operation::BareArrowBlock(_, _, _, body) => self.stmts(visitor, body),
            Operation::Cond(_, _, then, _) => self.expr(visitor, then),
            Operation::Binary(_, _, _, right) => self.expr(visitor, right),
            Operation::Seq(..)
            | Operation::Unary(..)
            | Operation::Update(..)
            | Operation::Spread(..)
            | Operation::Hole => Ok(()),
        }
    }

    #[cycle(walk)]
    #[tactic(auto, using(crate::proofs::Visits::visits))]
    fn third_of_operation<V: Visitor>(
        self,
        visitor: &mut V,
        operation: &mut Operation<'_>,
    ) -> Result<(), AllocError>
        ensures seen { OnOk result (view_operation operation.new ≡ with_part 2 V.made (view_operation operation.old)) }
        ensures places { OnOk result (kept V.keeps (told_operation operation.new) ≡ kept V.keeps (told_operation operation.old)) }
    {
        match operation {
            Operation::Cond(_, _, _, other) => self.expr(visitor, other),
            _ => Ok(()),
        }
    }

    #[cycle(walk)]
    pub(crate) fn access<V: Visitor>(
        self,
        visitor: &mut V,
        access: &mut Access<'_>,
    ) -> Result<(), AllocError>
        ensures seen { OnOk result (view_access access.new ≡ within V.made (view_access access.old)) }
        ensures places { OnOk result (kept V.keeps (told_access access.new) ≡ kept V.keeps (told_access access.old)) }
    {
        self.first_of_access(visitor, access)?;
        self.second_of_access(visitor, access)
    }

    #[cycle(walk)]
    #[tactic(auto, using(crate::proofs::Visits::visits))]
    fn first_of_access<V: Visitor>(
        self,
        visitor: &mut V,
        access: &mut Access<'_>,
    ) -> Result<(), AllocError>
        ensures seen { OnOk result (view_access access.new ≡ with_part 0 V.made (view_access access.old)) }
        ensures places { OnOk result (kept V.keeps (told_access access.new) ≡ kept V.keeps (told_access access.old)) }
    {
        match access {
            Access::Call(_, callee, _) => self.expr(visitor, callee),
            Access::Member(_, object, _) => self.expr(visitor, object),
            Access::Index(_, object, _) => self.expr(visitor, object),
            Access::Tagged(_, tag, _, _, _) => self.expr(visitor, tag),
            Access::New(_, callee, _) => self.expr(visitor, callee),
            Access::NewWithoutArguments(_, callee) => self.expr(visitor, callee),
            Access::SuperCall(_, arguments) => self.exprs(visitor, arguments),
            Access::SuperMember(..) => Ok(()),
            Access::SuperIndex(_, index) => self.expr(visitor, index),
            Access::ImportCall(_, source) => self.expr(visitor, source),
            Access::Chain(_, object, _) => self.expr(visitor, object),
        }
    }

    #[cycle(walk)]
    #[tactic(auto, using(crate::proofs::Visits::visits))]
    fn second_of_access<V: Visitor>(
        self,
        visitor: &mut V,
        access: &mut Access<'_>,
    ) -> Result<(), AllocError>
        ensures seen { OnOk result (view_access access.new ≡ with_part 1 V.made (view_access access.old)) }
        ensures places { OnOk result (kept V.keeps (told_access access.new) ≡ kept V.keeps (told_access access.old)) }
    {
        match access {
            Access::Call(_, _, arguments) => self.exprs(visitor, arguments),
            Access::Index(_, _, index) => self.expr(visitor, index),
            Access::Tagged(_, _, _, _, parts) => self.exprs(visitor, parts),
            Access::New(_, _, arguments) => self.exprs(visitor, arguments),
            Access::Chain(_, _, links) => self.links(visitor, links),
            Access::Member(..)
            | Access::NewWithoutArguments(..)
            | Access::SuperCall(..)
            | Access::SuperMember(..)
            | Access::SuperIndex(..)
            | Access::ImportCall(..) => Ok(()),
        }
    }

    #[cycle(walk)]
    fn links<V: Visitor>(
        self,
        visitor: &mut V,
        links: &mut Vec<Box<Link<'_>>>,
    ) -> Result<(), AllocError>
        ensures seen { OnOk result (map (inside view_link) links.new.items ≡ map (visited V.made) (map (inside view_link) links.old.items)) }
        ensures places { OnOk result (kept_each V.keeps (inside told_link) links.new.items ≡ kept_each V.keeps (inside told_link) links.old.items) }
    {
        for link in links.iter_mut() {
            self.link(visitor, link)?;
        }
        Ok(())
    }

    #[cycle(walk)]
    #[tactic(auto, using(crate::proofs::Visits::visits))]
    fn link<V: Visitor>(self, visitor: &mut V, link: &mut Link<'_>) -> Result<(), AllocError>
        ensures seen { OnOk result (view_link link.new ≡ visited V.made (view_link link.old)) }
        ensures places { OnOk result (kept V.keeps (told_link link.new) ≡ kept V.keeps (told_link link.old)) }
    {
        match link {
            Link::Member(..) => Ok(()),
            Link::Index(_, _, index) => self.expr(visitor, index),
            Link::Call(_, _, arguments) => self.exprs(visitor, arguments),
        }
    }
}
