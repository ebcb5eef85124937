//! The parts of operators, calls and members at their places.

ghost use Rattle.std.specs.Prelude.{◌≡◌, OnOk, map, false};
ghost use Rattle.jsx_tree.specs.View.{inside, view_operation, view_access, view_link};
ghost use Rattle.jsx_scope.specs.Walk.{walk, inner, with_part, place_of};
ghost use Rattle.jsx_scope.specs.declared.place.Place.TheVariants as place;

use crate::place::{Place, left, right};
use crate::walk::Walker;
use jsx_tree::{Access, Link, Operation};
use std::alloc::AllocError;

/// The place of an operation's first part.
#[tactic(auto, using(crate::proofs::Walks::views))]
fn first_place(operation: &Operation<'_>) -> Place
    ensures { result ≡ place_of 0 (view_operation operation.now) }
{
    match operation {
        Operation::Binary(_, operator, _, _) => left(*operator),
        Operation::Cond(..) => Place::Level(3),
        Operation::Unary(..) => Place::Level(15),
        Operation::Spread(..) | Operation::Seq(..) => Place::Level(1),
        _ => Place::Level(0),
    }
}

#[tactic(auto, using(crate::proofs::Walks::views))]
fn second_place(operation: &Operation<'_>) -> Place
    ensures { result ≡ place_of 1 (view_operation operation.now) }
{
    match operation {
        Operation::Binary(_, operator, _, _) => Place::Level(right(*operator)),
        Operation::Arrow(..) | Operation::BareArrow(..) => Place::ArrowBody,
        Operation::Assign(..) | Operation::OpAssign(..) | Operation::Cond(..) => Place::Level(1),
        _ => Place::Level(0),
    }
}

impl Walker {
    #[cycle(walk)]
    pub(crate) fn operation(
        self,
        bare: bool,
        operation: &mut Operation<'_>,
    ) -> Result<(), AllocError>
        ensures { OnOk result (view_operation operation.new ≡ inner bare (view_operation operation.old)) }
    {
        self.first_of_operation(bare, operation)?;
        self.second_of_operation(bare, operation)?;
        self.third_of_operation(bare, operation)
    }

    #[cycle(walk)]
    #[tactic(auto, using(crate::proofs::Walks::views))]
    fn first_of_operation(self, bare: bool, operation: &mut Operation<'_>) -> Result<(), AllocError>
        ensures { OnOk result (view_operation operation.new ≡ with_part 0 bare (view_operation operation.old)) }
    {
        let place = first_place(operation);
        match operation {
            Operation::Seq(_, items) => self.exprs(place, bare, items),
            Operation::Assign(_, target, _) => self.pattern(bare, target),
            Operation::OpAssign(_, _, target, _) => self.pattern(bare, target),
            Operation::Arrow(_, parameters, _) => self.patterns(false, parameters),
            Operation::ArrowBlock(_, parameters, _, _) => self.patterns(false, parameters),
            Operation::Cond(_, test, _, _) => self.expr(place, bare, test),
            Operation::Binary(_, _, left, _) => self.expr(place, bare, left),
            Operation::Unary(_, _, operand) => self.expr(place, bare, operand),
            Operation::Update(_, _, _, target) => self.pattern(bare, target),
            Operation::Spread(_, operand) => self.expr(place, bare, operand),
            Operation::BareArrow(..) | Operation::BareArrowBlock(..) | Operation::Hole => Ok(()),
        }
    }

    #[cycle(walk)]
    #[tactic(auto, using(crate::proofs::Walks::views))]
    fn second_of_operation(
        self,
        bare: bool,
        operation: &mut Operation<'_>,
    ) -> Result<(), AllocError>
        ensures { OnOk result (view_operation operation.new ≡ with_part 1 bare (view_operation operation.old)) }
    {
        let place = second_place(operation);
        match operation {
            Operation::Assign(_, _, value) => self.expr(place, bare, value),
            Operation::OpAssign(_, _, _, value) => self.expr(place, bare, value),
            Operation::Arrow(_, _, value) => self.expr(place, bare, value),
            Operation::ArrowBlock(_, _, _, body) => self.body(body),
            Operation::BareArrow(_, _, value) => self.expr(place, bare, value),
            Operation::BareArrowBlock(_, _, _, body) => self.body(body),
            Operation::Cond(_, _, then, _) => self.expr(place, bare, then),
            Operation::Binary(_, _, _, right) => self.expr(place, bare, right),
            Operation::Seq(..)
            | Operation::Unary(..)
            | Operation::Update(..)
            | Operation::Spread(..)
            | Operation::Hole => Ok(()),
        }
    }

    #[cycle(walk)]
    #[tactic(auto, using(crate::proofs::Walks::views))]
    fn third_of_operation(self, bare: bool, operation: &mut Operation<'_>) -> Result<(), AllocError>
        ensures { OnOk result (view_operation operation.new ≡ with_part 2 bare (view_operation operation.old)) }
    {
        match operation {
            Operation::Cond(_, _, _, other) => self.expr(Place::Level(1), bare, other),
            _ => Ok(()),
        }
    }

    #[cycle(walk)]
    pub(crate) fn access(self, bare: bool, access: &mut Access<'_>) -> Result<(), AllocError>
        ensures { OnOk result (view_access access.new ≡ inner bare (view_access access.old)) }
    {
        self.first_of_access(bare, access)?;
        self.second_of_access(bare, access)
    }

    #[cycle(walk)]
    #[tactic(auto, using(crate::proofs::Walks::views))]
    fn first_of_access(self, bare: bool, access: &mut Access<'_>) -> Result<(), AllocError>
        ensures { OnOk result (view_access access.new ≡ with_part 0 bare (view_access access.old)) }
    {
        match access {
            Access::Call(_, callee, _) => self.expr(Place::Level(18), bare, callee),
            Access::Member(_, object, _) => self.expr(Place::DotObject, bare, object),
            Access::Index(_, object, _) => self.expr(Place::Level(18), bare, object),
            Access::Tagged(_, tag, _, _, _) => self.expr(Place::Level(18), bare, tag),
            Access::New(_, callee, _) => self.expr(Place::NewCallee, bare, callee),
            Access::NewWithoutArguments(_, callee) => self.expr(Place::NewCallee, bare, callee),
            Access::SuperCall(_, arguments) => self.exprs(Place::Level(1), false, arguments),
            Access::SuperMember(..) => Ok(()),
            Access::SuperIndex(_, index) => self.expr(Place::Level(0), false, index),
            Access::ImportCall(_, source) => self.expr(Place::Level(1), false, source),
            Access::Chain(_, object, _) => self.expr(Place::Level(18), bare, object),
        }
    }

    #[cycle(walk)]
    #[tactic(auto, using(crate::proofs::Walks::views))]
    fn second_of_access(self, bare: bool, access: &mut Access<'_>) -> Result<(), AllocError>
        ensures { OnOk result (view_access access.new ≡ with_part 1 bare (view_access access.old)) }
    {
        match access {
            Access::Call(_, _, arguments) => self.exprs(Place::Level(1), false, arguments),
            Access::Index(_, _, index) => self.expr(Place::Level(0), false, index),
            Access::Tagged(_, _, _, _, parts) => self.exprs(Place::Level(0), false, parts),
            Access::New(_, _, arguments) => self.exprs(Place::Level(1), false, arguments),
            Access::Chain(_, _, links) => self.links(bare, links),
            Access::Member(..)
            | Access::NewWithoutArguments(..)
            | Access::SuperCall(..)
            | Access::SuperMember(..)
            | Access::SuperIndex(..)
            | Access::ImportCall(..) => Ok(()),
        }
    }

    #[cycle(walk)]
    fn links(self, bare: bool, links: &mut Vec<Box<Link<'_>>>) -> Result<(), AllocError>
        ensures { OnOk result (map (inside view_link) links.new.items ≡ map (walk (place.Level 0) bare) (map (inside view_link) links.old.items)) }
    {
        for link in links.iter_mut() {
            self.link(bare, link)?;
        }
        Ok(())
    }

    #[cycle(walk)]
    #[tactic(auto, using(crate::proofs::Walks::views))]
    fn link(self, bare: bool, link: &mut Link<'_>) -> Result<(), AllocError>
        ensures { OnOk result (view_link link.new ≡ walk (place.Level 0) bare (view_link link.old)) }
    {
        match link {
            Link::Member(..) => Ok(()),
            Link::Index(_, _, index) => self.expr(Place::Level(0), false, index),
            Link::Call(_, _, arguments) => self.exprs(Place::Level(1), false, arguments),
        }
    }
}
